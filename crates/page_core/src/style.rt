//! How a page looks: light, dark and on paper.

/// How a page looks: light, dark and on paper.
pub const STYLE: &str =
    r#":root{color-scheme:light dark;--bg:light-dark(#fff,#15171a);--fg:light-dark(#111,#e6e6e6);--dim:light-dark(#666,#9a9a9a);--line:light-dark(#d4d4d4,#3a3d42);--msg:light-dark(#8d9fb5,#5d738c);--sel:light-dark(#0b57d0,#8ab4f8);--cur:light-dark(#e3edfd,#22314d);--bar:light-dark(#ffdc73,#8a6d00);--plus:light-dark(#0a7030,#5fd38a);--minus:light-dark(#c01818,#ff8a80);--warn:light-dark(#a84a00,#ffb068);--chain:light-dark(#c2188b,#ff80cf);--box:light-dark(#f6f6f6,#1d2024)}
*{box-sizing:border-box}
html,body{margin:0;height:100%;background:var(--bg);color:var(--fg);font:13px/20px system-ui,sans-serif}
[hidden]{display:none!important}
main{display:grid;grid-template:auto 1fr/minmax(0,1fr) minmax(280px,26%);height:100vh}
header{grid-column:1/3;display:flex;flex-wrap:wrap;gap:4px 12px;align-items:center;padding:6px 12px;border-bottom:1px solid var(--line)}
h1{font-size:14px;margin:0}
#sum{margin:0;flex:1 1 auto;display:flex;flex-wrap:wrap;gap:0 10px;color:var(--dim)}
input,button{font:inherit;color:var(--fg);background:var(--bg);border:1px solid var(--line);border-radius:3px;padding:1px 7px}
input:not([type]){width:22em;max-width:60vw;font-family:monospace}
button{cursor:pointer}
button[aria-pressed=true]{background:var(--cur);border-color:var(--sel)}
button.plain{border:0;padding:0;background:none;color:var(--sel)}
button.warn{color:var(--warn)}
:focus-visible{outline:2px solid var(--sel);outline-offset:-2px}
#left{display:flex;flex-direction:column;min-width:0;min-height:0}
#frame{display:flex;flex:1;min-height:120px}
#time{flex:1;min-width:0;overflow:auto;position:relative}
#map{flex:none;border-left:1px solid var(--line);cursor:pointer}
#heads,#again{position:sticky;top:0;z-index:2;background:var(--bg)}
#heads,.chunk{min-width:calc(214px + var(--lanes) + 1.5*var(--times))}
#again,#grid{min-width:calc(232px + var(--lanes))}
#heads{border-bottom:1px solid var(--line);height:var(--top)}
.heads{display:block}
.chunk>.heads{display:none}
text{font:12px monospace;fill:var(--fg)}
.heads text{font-weight:bold}
.heads .here{fill:var(--sel)}
.chunk{position:relative;content-visibility:auto;height:calc(var(--n)*20px)}
.draw{position:absolute;left:52px;top:0;pointer-events:none;overflow:hidden}
.row,.srow{display:flex;height:20px;white-space:pre;cursor:pointer}
.no,.at{flex:none;padding-left:8px;overflow:hidden;text-overflow:ellipsis;color:var(--dim);font:12px/20px monospace}
.no{width:calc(52px + var(--lanes))}
.at{width:var(--times)}
.words{flex:1;min-width:0;overflow:hidden;text-overflow:ellipsis;font:12px/20px monospace;padding-left:8px}
.row .words{display:flex}
.words>span{overflow:hidden;text-overflow:ellipsis;flex:0 1 auto}
.words>.line{flex-shrink:999;min-width:11em}
.row:hover,.srow:hover{background:var(--box)}
.row.here{background:var(--cur)}
.row.here .no{color:var(--sel);font-weight:bold}
.undone .line{text-decoration:line-through}
.undone,.undo .line{color:var(--dim)}
.out .words,.out .no,.still .undone{opacity:.35}
.plus{color:var(--plus)}.minus{color:var(--minus)}.warn{color:var(--warn)}.dim{color:var(--dim)}
.hit .words{font-weight:bold}
path{fill:none;stroke:var(--fg);stroke-width:1.2px}
.lane{stroke:var(--line)}
.msg{stroke:var(--msg)}
.back{stroke:var(--msg);stroke-dasharray:3 3;opacity:.7}
.m{fill:var(--fg);stroke:var(--fg)}
.open{fill:var(--bg)}
.bad{fill:var(--warn);stroke:var(--warn)}
.m.refused{fill:var(--bg);stroke:var(--minus)}
.cross{stroke-width:2px;stroke:var(--dim)}
.old{fill:var(--bg);stroke:var(--dim);opacity:.8}
.bar{stroke:var(--bar);stroke-width:var(--bar-width)}
.in,.after{stroke:var(--sel);stroke-width:2.5px}
.after{stroke-dasharray:7 2}
.ring{stroke:var(--sel);stroke-width:2px}
.set{stroke:var(--sel);stroke-width:1.6px;opacity:.75}
.chain{stroke:var(--chain);stroke-width:3.5px}
.faded .base{opacity:.3}
#tabs{display:flex;flex-wrap:wrap;gap:4px 10px;align-items:center;padding:4px 8px;border:solid var(--line);border-width:1px 0;background:var(--box);color:var(--dim)}
#now{margin-left:auto;overflow:hidden;text-overflow:ellipsis;white-space:nowrap}
#state{flex:none;height:min(40vh,var(--state));overflow:auto}
#grid{position:relative}
.dot{stroke-width:8px;stroke-linecap:round}
.new{stroke:var(--plus);stroke-width:12px}.odd{stroke:var(--warn)}.pale{stroke:var(--line)}
.off{stroke:var(--minus);stroke-width:2px}
.never{stroke:var(--dim);stroke-width:1.5px}
.column{stroke:var(--cur);stroke-width:var(--pitch)}
text.c{text-anchor:middle;font-size:min(11px,var(--pitch)/2)}
text.behind{fill:var(--warn);font-weight:bold}
text.down{fill:var(--minus);text-decoration:line-through}
text.none{fill:var(--dim)}
aside{border-left:1px solid var(--line);overflow:auto;padding:8px 12px;overflow-wrap:anywhere}
h2{font:bold 13px/20px monospace;margin:0 0 4px}
h3{font-size:12px;line-height:18px;margin:10px 0 2px;color:var(--dim);font-weight:normal}
ul,p{margin:0;padding:0;list-style:none}
li,.mono{font:12px/18px monospace}
a{color:var(--sel);text-decoration:none}
a:hover,a:focus{text-decoration:underline}
a.gone{color:var(--dim);text-decoration:line-through}
a.hit{font-weight:bold;text-decoration:underline}
.who{border-top:1px solid var(--line);margin-top:8px;padding-top:4px;font-weight:bold}
dl{display:grid;grid-template-columns:auto 1fr;gap:0 10px;margin:0 0 10px}
dt{font-family:monospace}dd{margin:0}
.still{display:block;overflow:visible}
#wait{padding:8px;animation:1s 1s backwards wait}
@keyframes wait{from{opacity:0}}
@media (max-width:899px){main{display:block;height:auto}#frame,#state{max-height:70vh}#left{display:block}#time{max-height:70vh}aside{border:0;border-top:1px solid var(--line)}}
@media print{
:root{color-scheme:light}
*{print-color-adjust:exact}
html,body,main,#left,#frame,#time,#state,aside{display:block;height:auto;max-height:none;overflow:visible}
header button,header label,#map,#heads,#tabs button,#tabs label,#help{display:none}
.chunk{content-visibility:visible;height:auto;break-inside:avoid;margin-bottom:8px}
.chunk>.heads{display:block}
.chunk>.draw{top:var(--top)}
.words{font-size:10px}
.srow,li{break-inside:avoid}
aside{border:0;padding:8px 0}
}
"#;
