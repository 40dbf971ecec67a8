//! The HTML with which the body of each page begins.

/// The HTML of a page's body up to the still picture, the same on each page. `main` stays hidden until the script has
/// filled it.
pub const BODY: &str =
    r#"<p id="wait">The script of this page did not run. With scripts off the run follows here.</p>
<main hidden>
<header>
<h1>presence_bench</h1>
<p id="sum"></p>
<label>Find <input id="find" list="pairs" placeholder="key, or topic key  (/)" autocomplete="off"></label>
<datalist id="pairs"></datalist>
<button id="only" title="o">only these</button>
<button id="past" title="p">past</button>
<button id="future" title="f">future</button>
<button id="keys">?</button>
</header>
<section id="left">
<div id="frame">
<div id="time" tabindex="0" role="listbox" aria-label="Steps"><div id="heads" aria-hidden="true"></div></div>
<canvas id="map" aria-hidden="true"></canvas>
</div>
<div id="tabs">
<button id="online" title="1">online</button>
<button id="seen" title="2">seen</button>
<button id="messages" title="3">messages</button>
<label id="differ-label"><input type="checkbox" id="differ"> <span id="differ-text"></span> (d)</label>
<span id="now"></span>
</div>
<div id="state" tabindex="0" role="region" aria-label="Lists"><div id="again" aria-hidden="true"></div><div id="grid"></div></div>
</section>
<aside id="side" tabindex="0" aria-label="Step">
<div id="help" hidden>
<h2>Keys</h2>
<dl>
<dt>Down Up, j k</dt><dd>next, previous line</dd>
<dt>Right Left, l h</dt><dd>the same at this node</dd>
<dt>n N</dt><dd>next, previous change of what was found, else of any list</dd>
<dt>t T</dt><dd>next, previous trouble: refused, not kept, late, again, lost</dd>
<dt>Home End, Page</dt><dd>first, last line; ten lines</dd>
<dt>/ Esc</dt><dd>find a presence; find none, close</dd>
<dt>w W</dt><dd>find what the step changed, then: why, at the next, previous node</dd>
<dt>o</dt><dd>only the lines that touch it</dd>
<dt>p f</dt><dd>past, future of the step</dd>
<dt>1 2 3</dt><dd>online where; seen of each; messages</dd>
<dt>d</dt><dd>only where nodes differ</dd>
</dl>
<h2>Marks</h2>
<dl id="marks"></dl>
</div>
<div id="step"></div>
</aside>
</main>
"#;
