//! The script of a page. It applies what the data says, follows the edges between steps and lays out the page; it knows
//! no rule of a replica.

/// The script of a page. It applies what the data says, follows the edges between steps and lays out the page; it knows
/// no rule of a replica.
pub const SCRIPT: &str = r##""use strict";
(() => {
const $ = id => document.getElementById(id);
const { nodes: plain, consoles, calls, names, pids, cut, events } = JSON.parse($("run").textContent);
const own = names || plain, N = own.length, ROW = 20, CHUNK = 20, END = Infinity, UNKNOWN = 0, DOWN = 2;

const many = (k, word) => `${k} ${word}${k === 1 ? "" : "s"}`;

// Escapes what would break or reverse a row.
const safe = text => text.replace(/[\p{C}\u2028\u2029]/gu, c => `\\u{${c.codePointAt().toString(16)}}`);
const quoted = text => safe(/^[^\s"\p{C}]+$/u.test(text) ? text : JSON.stringify(text)), nodes = own.map(quoted);
// A word of logs spells a string, or `%=` and JSON, with bytes as `%XX`; cut, it ends in `~NUMBER`.
const ofJson = json => json[0] === '"' ? quoted(JSON.parse(json)) : safe(json);
const brief = (text, mark) => { const c = [...text.slice(0, 200)]; return c.length > 80 ? c.slice(0, 79).join("") + "\u2026" + mark : text; };
function value(word) {
  if (!events || !/[%~]/.test(word)) return word;
  const k = word.lastIndexOf("~"), text = k < 0 ? decodeURIComponent(word.replace(/^%(=|$)/, "")) : "";
  return k >= 0 ? brief(ofJson(cut[word.slice(k + 1)]), word.slice(k)) : word.startsWith("%=") ? safe(text) : quoted(text);
}
const process = n => pids ? brief(ofJson(pids[n]), "#" + n) : n;
function spoken(line) {
  const [node, verb, ...rest] = line.split(" "), named = name => nodes[plain.indexOf(name)] ?? name;
  return [named(node), verb, ...rest.map(/^(join|update|leave)/.test(verb) ? (w, k) => k ? value(w) : process(w) : named)].join(" ");
}
calls.forEach(c => { c.verb = c.line.split(" ")[1]; if (events) c.line = spoken(c.line); });
// Puts events that are no calls among `calls`; leaves out what a full bench didn't record.
if (events) {
  const asked = calls.splice(0);
  for (const { line, time, node, online } of events) {
    const c = node === undefined ? asked.shift() : { by: node, verb: "online", no: "message", line: nodes[node] + (online ? " online" : ": its message was not sent") };
    if (!c) continue;
    if (online) Object.assign(c, { node, online, differs: online[0].length + online[1].length > 0 });
    calls.push(Object.assign(c, { input: line, time: time && safe(time) }));
  }
}

// Worked out once. A place is an index into `calls`.
const places = [...calls.keys()];
const at = []; // of a step: its place
const gone = calls.map(() => END); // by place: where it was taken back
const presences = []; // [step, node, clock, process, topic, key, metadata]
const hops = []; // of a presence: [place, node, standing, place read]
const listed = []; // of a presence: [place, node] where a list changed
const told = []; // of a presence: broadcasts of it, and of its removal
const dots = new Map(); // of a name and a clock: its presence now
const dot = (name, clock) => name + N * clock, presence = ([name, clock]) => dots.get(dot(name, clock));
const groups = (numbers, k) => (numbers || []).flatMap((_, j, all) => j % k ? [] : [all.slice(j, j + k)]);
const stood = (p, n, i) => hops[p].findLast(h => h[1] === n && h[0] <= i && gone[h[0]] > i); // a presence at a node, behind a place
const opening = () => nodes.map((_, n) => nodes.map((_, m) => [n === m ? 1 : UNKNOWN, 0, 0]));
const taken = new Map(), known = opening();
calls.forEach((c, i) => {
  c.node ??= -1;
  c.reply = c.step ? c.step + " ok" : c.undoes ? "undone " + c.undoes : !c.online ? "no " + c.no : c.differs ? "differs" : "as the bench has it";
  c.next = [];
  c.notes = [];
  if (c.step) at[c.step] = i;
  if (c.undoes) gone[at[c.undoes]] = i;
  if (c.node < 0) c.notes.push(c.no === "message" ? "not asked" : "refused");
  if (c.differs) c.notes.push("differ");
  if (c.prev) calls[c.before = at[c.prev]].next.push(i);
  if (c.from) calls[c.send = at[c.from]].next.push(i);
});
calls.forEach((c, i) => {
  if (c.made) {
    dots.set(dot(c.node, c.made[0]), presences.length);
    presences.push([c.step, c.node, ...c.made]);
    hops.push([]);
    listed.push([]);
    told.push([[], []]);
  }
  c.minus = groups(c.minus, 2).map(presence);
  c.plus = groups(c.plus, 2).map(presence);
  c.dots = groups(c.dots, 4);
  c.hops = groups(c.hops, 3).map(h => [presence(h), h[2]]);
  c.missed &&= groups(c.missed, 3).map(([m, k, more]) => [m, k + more]);
  c.was = c.dots.map(([m]) => [m, ...known[c.node][m]]);
  c.dots.forEach(([m, ...d], j) => {
    known[c.node][m] = d;
    if (!c.step || d[1] || d[2] || !(c.was[j][2] || c.was[j][3])) return;
    // no dot of the name is seen any more
    presences.forEach((made, p) => { if (made[1] === m && stood(p, c.node, i)?.[2]) c.hops.push([p, 0]); });
  });
  c.hops = c.hops.filter(h => h[0] !== undefined);
  if (c.live || c.gone) c.carries = [c.live, c.gone].map(clocks => groups(clocks, 1).map(([k]) => presence([c.node, k])).filter(p => p !== undefined));
  if (c.from) {
    const key = c.node * N + calls[c.send].node, others = (taken.get(key) || []).filter(j => gone[j] > i);
    if (!c.sends) c.fresh = c.dots.reduce((k, d, j) => k + d[2] + d[3] - c.was[j][2] - c.was[j][3], 0);
    c.again = others.find(j => calls[j].send === c.send);
    if (c.again === undefined) c.late = others.find(j => calls[j].send > c.send);
    taken.set(key, [...others, i]);
    if (c.missed) c.notes.push("not kept");
    if (c.again !== undefined) c.notes.push("again");
    if (c.late !== undefined) c.notes.push("late");
  }
  if (c.sends) {
    const who = takers(i).filter(j => gone[j] === END).map(j => calls[j].node);
    c.never = c.carries ? nodes.map((_, n) => n).filter(n => n !== c.node && !who.includes(n)) : [];
    if (gone[i] === END) c.notes.push(...!who.length ? ["lost"] : c.never.length ? ["not to all"] : []);
  }
  if (gone[i] < END) c.notes.push("undone");
  for (const p of [...c.minus, ...c.plus]) listed[p].push([i, c.node]);
  for (const [p, standing] of c.hops) hops[p].push([i, c.node, standing, c.send !== undefined ? stood(p, calls[c.send].node, c.send)?.[0] : undefined]);
  (c.carries || []).forEach((ids, k) => ids.forEach(p => told[p][k].push(i)));
  const back = calls[at[c.undoes]];
  if (back?.made) dots.delete(dot(c.node, back.made[0]));
});
function takers(i) { return calls[i].next.filter(j => calls[j].send === i); }
const topicKey = p => presences[p][4] + " " + presences[p][5], shownKey = pair => pair.split(" ").map(value).join(" ");
const rowText = ([n, pid, ...w]) => `${value(w[0])} ${value(w[1])} ${nodes[n]}/${process(pid)} ${value(w[2])}`;
const label = p => rowText([presences[p][1], ...presences[p].slice(3)]);
const order = presences.map((_, p) => p).sort((p, q) => {
  const a = presences[p], b = presences[q];
  for (const k of [4, 5, 1]) if (a[k] !== b[k]) return a[k] < b[k] ? -1 : 1;
  return a[3].length - b[3].length || (a[3] < b[3] ? -1 : a[3] > b[3] ? 1 : a[2] - b[2]);
});
const isMade = p => at[presences[p][0]] <= cur && gone[at[presences[p][0]]] > cur;
const number = i => calls[i].step || "call " + (i + 1);

// At the cursor
let cur = -1; // the last call that was made
const mask = new Int32Array(presences.length); // of a presence: a bit for each node that lists it
const now = opening();
const lists = (p, n) => mask[p] >>> n & 1;
function move(k) {
  while (cur !== k) {
    const back = cur > k, c = calls[back ? cur-- : ++cur];
    for (const p of back ? c.plus : c.minus) mask[p] &= ~(1 << c.node);
    for (const p of back ? c.minus : c.plus) mask[p] |= 1 << c.node;
    for (const [m, ...d] of back ? c.was : c.dots) now[c.node][m] = d;
  }
}

// The picture
const pitch = N < 5 ? 56 : N < 9 ? 40 : N < 17 ? 24 : 18, width = pitch * N;
const X = n => pitch * n + pitch / 2;
const short = name => name.length > 24 ? name.slice(0, 23) + "\u2026" : name;
const longest = Math.max(...nodes.map(n => short(n).length)), flat = longest * 9 < pitch;
const top = flat ? 26 : 12 + Math.ceil(longest * 7.4);
const css = (k, v) => document.documentElement.style.setProperty(k, v + "px");
css("--lanes", width);
css("--pitch", pitch);
css("--top", top);
const times = calls.reduce((k, c) => Math.max(k, (c.time || "").length), 0);
css("--times", 12 + 7.3 * Math.min(26, times));
css("--bar-width", Math.min(12, Math.round(pitch * 0.45)));

function el(tag, cls, ...kids) {
  const e = document.createElement(tag);
  if (cls) e.className = cls;
  e.append(...kids);
  return e;
}
function svg(tag, attributes, ...kids) {
  const e = document.createElementNS("http://www.w3.org/2000/svg", tag);
  for (const k in attributes) e.setAttribute(k, attributes[k]);
  e.append(...kids);
  return e;
}
const path = (cls, d) => svg("path", { class: cls, d });
const heads = () => svg("svg", { class: "heads", width: 52 + width, height: top }, ...nodes.map((name, n) => svg("text", {
  transform: `translate(${52 + X(n)} ${top - 8})` + (flat ? "" : "rotate(-90)translate(0 4)"),
  "text-anchor": flat ? "middle" : "", "data-n": n }, short(name))));
const round = r => `m${-r} 0a${r} ${r} 0 1 0 ${2 * r} 0a${r} ${r} 0 1 0 ${-2 * r} 0z`;
const circle = (x, y, r) => `M${x} ${y}` + round(r);
const SQUARE = "m-4-4h8v8h-8z", CROSS = "m-4-4l8 8m-8 0l8-8";
const shapes = {
  join: ["m", round(5)], leave: ["m open", round(5)], send: ["m", SQUARE], deliver: ["m", round(3.5)], up: ["m open", "m0-5l5 9h-10z"], online: ["m open", "m-6-3h12v6h-12z"],
  down: ["m open", "m0 5l5-9h-10z"], permdown: ["m open", "m0 5l5-9h-10zm-5 1h10"], undo: ["m cross", CROSS], no: ["m refused", "m0-5l5 5l-5 5l-5-5z"],
};
Object.assign(shapes, { update: shapes.join, leaveall: shapes.leave });
function mark(verb, x, y) {
  const [cls, d] = shapes[verb] || shapes.send;
  return [cls, `M${x} ${y}${d}`];
}
function remark(c) {
  const out = [];
  if (c.missed) out.push("nothing kept of " + c.missed.map(([m]) => nodes[m]).join(" "));
  if (c.again !== undefined) out.push("again");
  if (c.late !== undefined) out.push("late");
  if (c.notes.includes("lost")) out.push("taken by nobody");
  if (c.differs) ["bench", "node"].forEach((who, k) => c.online[k].length && out.push(
    `only the ${who} has ${shownKey(c.online[k][0].slice(2, 4).join(" "))}` + (c.online[k].length > 1 ? ` and ${c.online[k].length - 1} more` : "")));
  return out.join(", ");
}
const QUIET = [" forgotten", " kept, hidden", " gone, was not listed"]; // of a standing that no list shows
function words(c) {
  const w = el("span", "words", el("span", "line", c.line)), add = (cls, text) => w.append(el("span", cls, "  " + text));
  if (!c.step && !c.differs) add(c.undoes || c.online ? "dim" : "minus", c.reply);
  const few = only || c.minus.length + c.plus.length < 3;
  if (only) for (const [p, standing] of c.hops) if (found.has(p) && ![...c.minus, ...c.plus].includes(p)) {
    add("dim", shownKey(topicKey(p)) + QUIET[standing]);
  }
  for (const [k, sign] of [["minus", "\u2212"], ["plus", "+"]]) {
    if (few) c[k].filter(p => !only || found.has(p)).forEach(p => add(k, sign + shownKey(topicKey(p))));
    else if (c[k].length) add(k, sign + c[k].length);
  }
  if (remark(c)) add("warn", remark(c));
  else if (c.fresh === 0) add("dim", "nothing new");
  return w;
}

// the places with a row, and the row of each place or of the next with one
let shown, line, chunks = [], arrows, marks;
const Y = i => line[i] * ROW + ROW / 2, bottom = () => shown.length * ROW, isShown = i => shown[line[i]] === i;
const rowOf = i => $("c" + (i + 1));

// Lays paths, each with class and heights, into their chunks.
function paint(layer, items) {
  const parts = chunks.map(() => new Map());
  for (const [cls, y1, y2, d] of items) {
    const last = Math.min(chunks.length - 1, Math.floor(y2 / ROW / CHUNK));
    for (let k = Math.max(0, Math.floor(y1 / ROW / CHUNK)); k <= last; k++) parts[k].set(cls, (parts[k].get(cls) || "") + d);
  }
  chunks.forEach((c, k) => {
    if (parts[k].size || c[layer].firstChild) c[layer].replaceChildren(...[...parts[k]].map(([cls, d]) => path(cls, d)));
  });
}
function lay() {
  shown = places.filter(i => !only || touching.has(i));
  line = [];
  let k = 0;
  calls.forEach((_, i) => { line[i] = k; if (shown[k] === i) k++; });
  chunks.forEach(c => c.box.remove());
  chunks = [];
  for (let k = 0; k < shown.length; k += CHUNK) {
    const part = shown.slice(k, k + CHUNK), height = part.length * ROW;
    const c = { under: svg("g"), base: svg("g", { class: "base" }), over: svg("g") };
    c.box = el("div", "chunk", heads(), ...part.map(i => {
      const row = el("div", "row" + (gone[i] < END ? " undone" : calls[i].undoes ? " undo" : ""), el("span", "no", calls[i].step || "\u00b7"), ...times ? [el("span", "at", calls[i].time || "")] : [], words(calls[i]));
      row.id = "c" + (i + 1);
      row.role = "option";
      return row;
    }), svg("svg", { class: "draw", width, height, viewBox: `0 ${k * ROW} ${width} ${height}` }, c.under, c.base, c.over));
    c.box.role = "none";
    c.box.style.setProperty("--n", part.length);
    chunks.push(c);
  }
  $("time").append(...chunks.map(c => c.box));
  // along the row of its send, then down beside its taker's lane
  const most = Math.floor((pitch / 2 - 6) / 3) + 1, slots = new Map();
  const items = [["lane", 0, bottom() - 1, nodes.map((_, n) => `M${X(n)} 0V${bottom()}`).join("")]];
  arrows = [];
  marks = [];
  for (const i of shown.filter(i => calls[i].from && isShown(calls[i].send)).sort((i, j) => calls[i].send - calls[j].send || i - j)) {
    const { send, node: to } = calls[i], from = calls[send].node, side = from < to ? -1 : 1, start = Y(send), y = Y(i);
    const key = to + side * N, ends = slots.get(key) || [];
    let q = 0;
    while (q < most - 1 && ends[q] >= start) q++;
    ends[q] = Math.max(ends[q] || 0, y);
    slots.set(key, ends);
    const x = X(to) + side * (6 + 3 * q);
    arrows[i] = [start, y, `M${X(from)} ${start}H${x + side * 3}L${x} ${start + 3}V${y - 4}L${X(to) + side * 3} ${y}`];
    items.push([gone[i] < END ? "back" : "msg", ...arrows[i]]);
  }
  for (const i of shown) {
    const c = calls[i], n = c.node < 0 ? c.by : c.node;
    if (n >= N) continue;
    let [cls, d] = mark(c.node < 0 ? "no" : c.undoes ? "undo" : c.verb, X(n), Y(i));
    if (gone[i] < END) cls = "m old";
    else if (remark(c)) cls += " bad";
    items.push(marks[i] = [cls, Y(i) - 5, Y(i) + 5, d]);
  }
  paint("base", items);
}

// What is looked for: the text, the presences that it finds, what is shown
let query = "", found = new Set(), touching = new Set(), bars = [], why = -1;
let only = false, past = false, future = false, tab = "online";
const usual = new Set(order.map(topicKey)).size > 40;
let differ = usual;
const words_of = text => text.split(" ").filter(x => x);
function look(text) {
  query = text.trim();
  const w = words_of(query), hit = test => new Set(w.length ? order.filter(p => test(presences[p][4], presences[p][5])) : []);
  found = hit((t, k) => w.length === 1 ? k === w[0] : t === w[0] && k === w[1]);
  if (!found.size) found = hit((t, k) => `${t} ${k}`.includes(w.join(" ")) || shownKey(`${t} ${k}`).includes(query));
  const pairs = new Set([...found].map(topicKey));
  const has = p => found.has(p), carried = c => (c.carries || []).flat().some(has);
  const count = nodes.map(() => 0), since = [];
  touching = new Set();
  bars = [];
  calls.forEach((c, i) => {
    const lost = c.minus.filter(has).length, won = c.plus.filter(has).length, before = count[c.node];
    if (lost || won) count[c.node] += won - lost;
    if (!before && count[c.node]) since[c.node] = i;
    if (before && !count[c.node]) bars.push([c.node, since[c.node], i]);
    if (lost || won || carried(c) || c.hops.some(h => has(h[0])) || c.missed && carried(calls[c.send])
      || c.online?.flat().some(r => pairs.has(r[2] + " " + r[3]))) touching.add(i);
  });
  count.forEach((k, n) => { if (k) bars.push([n, since[n], END]); });
  for (const i of [...touching]) {
    for (const j of [calls[i].send, at[calls[i].undoes], gone[i]]) if (j < END) touching.add(j);
  }
  $("only").disabled = !found.size;
  if (!found.size) { only = false; why = -1; }
}
// up to the cursor: its last hop at a node, the last call that changed whether the node lists it
const hop = (p, n) => stood(p, n, cur);
const change = (p, n) => listed[p].findLast(h => h[1] === n && h[0] <= cur)?.[0];
function chain(p, n) {
  const out = [];
  for (let h = hop(p, n); h; h = hops[p].find(o => o[0] === h[3])) {
    out.push(h[0]);
    if (h[3] === undefined) break;
    out.push(calls[h[0]].send);
  }
  return out;
}
function closure(i, ahead) {
  const set = new Set([i]), open = [i], kept = gone[i] === END;
  while (open.length) {
    const c = calls[open.pop()];
    for (const j of ahead ? c.next : [c.before, c.send]) {
      if (j !== undefined && !set.has(j) && !(ahead && kept && gone[j] < END)) { set.add(j); open.push(j); }
    }
  }
  return set;
}

// The step, beside the picture
const title = text => el("h3", "", text);
function link(i) {
  const a = el("a", gone[i] < END ? "gone" : "", `${calls[i].step || "\u00b7"} ${calls[i].line}`);
  a.href = hash(i);
  return a;
}
function list(items, make) {
  const lines = items.map(x => el("li", "", ...[make(x)].flat())), most = items.length > 12 ? 10 : 12, u = el("ul", "", ...lines.slice(0, most));
  if (lines.length > most) u.append(el("details", "", el("summary", "", `and ${lines.length - most} more`), ...lines.slice(most)));
  return u;
}
const warn = text => el("span", "warn", text), dim = text => el("span", "dim", text);
function step() {
  const c = calls[cur], out = [], say = (cls, ...kids) => out.push(el("p", cls, ...kids));
  if (!c) out.push(el("h2", "", "Before the first line"), dim("Each node knows itself alone, and all lists are empty."));
  else {
    const kept = gone[cur] === END, here = nodes[c.node];
    out.push(el("h2", "", `${c.step || "\u00b7"} ${c.line}`));
    say(c.node < 0 ? "minus" : "", (c.step ? "ok" : c.reply) + (c.by < N ? "" : `, asked by ${consoles[c.by - N] || "console"}`));
    if (c.input) say("dim", "Line " + c.input + (c.time ? ", at " + c.time : ""));
    if (c.held) say("", "Held by ", link(at[c.held[1]]));
    if (c.undoes) say("", "Takes back ", link(at[c.undoes]));
    if (!kept) say("warn", "Taken back later: ", link(gone[cur]));
    if (c.missed) say("warn", `Nothing kept of ${c.missed.map(([m, k]) => `${nodes[m]} (${many(k, "dot")})`).join(", ")}: ${here} did not know it.`);
    if (c.again !== undefined) say("warn", "Taken here before: ", link(c.again));
    if (c.late !== undefined) say("warn", "Late, after a younger message of its sender: ", link(c.late));
    if (c.fresh === 0 && !c.missed) say("dim", `It told of nothing that ${here} had not seen.`);
    if (c.notes.includes("lost")) say("warn", "No node took what it sent.");
    else if (c.notes.includes("not to all")) say("dim", "Not taken by " + c.never.map(n => nodes[n]).join(" "));
    const rows = [...c.minus.map(p => ["minus", "\u2212 ", p]), ...c.plus.map(p => ["plus", "+ ", p])];
    ["Only the bench has", `Only ${here} listed`].forEach((text, k) => c.online?.[k].length && out.push(title(text), list(c.online[k], rowText)));
    if (here && !c.online) out.push(title(rows.length ? `Changed in the list of ${here}` : `The list of ${here} stays`));
    out.push(list(rows, ([cls, sign, p]) => {
      const a = el("a", cls, sign + label(p));
      a.href = hash(cur, c.node, topicKey(p));
      return a;
    }));
    const causes = [[c.send, " which sent it"], [c.before, ` before it at ${here}`]].filter(([j]) => j !== undefined);
    if (causes.length) out.push(title("Follows from"), list(causes, ([j, text]) => [link(j), dim(text)]));
    const after = c.next.filter(j => !kept || gone[j] === END);
    if (after.length) out.push(title("What follows from it"), list(after, j => [link(j), warn(calls[j].send === cur ? " " + remark(calls[j]) : "")]));
    if (c.step) out.push(title(`${many(closure(cur, false).size - 1, "step")} in its past, ${closure(cur, true).size - 1} in its future`));
  }
  if (query) out.push(...told_of());
  $("step").replaceChildren(...out);
}
function told_of() {
  if (!found.size) return [title("Found"), warn(`No presence has ${query}.`)];
  const made = [...found].filter(isMade), out = [title(`${query}: ${made.length} so far` + (made.length < found.size ? `, ${found.size - made.length} made later or taken back` : ""))];
  if (made.length > 12) out.push(dim("The first 12 of them:"));
  for (const p of made.slice(0, 12)) {
    const make = at[presences[p][0]], own = hop(p, presences[p][1]), left = own && own[2] === 2;
    const life = el("p", "mono dim", "made ", link(make));
    if (left) life.append(", left ", link(own[0]));
    out.push(el("p", "mono who", label(p)), life);
    const groups = { "online since": [], "hidden since": [], "removed by": [], "forgotten by": [], "never at": [] };
    nodes.forEach((name, n) => {
      const h = hop(p, n), on = lists(p, n);
      const i = on || h && h[2] === 1 ? change(p, n) : h && h[0];
      const a = el("a", (on ? "plus" : h ? "minus" : "dim") + (n === why ? " hit" : ""), name + (i === undefined ? "" : " " + number(i)));
      a.href = hash(cur, n);
      const group = groups[on ? "online since" : !h ? "never at" : ["forgotten by", "hidden since", "removed by"][h[2]]];
      group.push(group.length ? ", " : " ", a);
    });
    for (const word in groups) {
      const kids = groups[word];
      if (word === "never at" && kids.length > 16) out.push(el("details", "mono", el("summary", "", `${word} ${kids.length / 2} nodes`), ...kids));
      else if (kids.length) out.push(el("p", "mono", word, ...kids));
    }
    if (why >= 0) out.push(...reason(p, why, left));
  }
  return out;
}
function reason(p, n, left) {
  const out = [], h = hop(p, n), sent = told[p][left ? 1 : 0].filter(i => i <= cur && gone[i] > cur);
  const ways = [...hops[p], ...listed[p]].filter(h => h[1] === n && h[0] <= cur).map(h => h[0]).sort((i, j) => i - j);
  if (ways.length) out.push(title(`What changed it at ${nodes[n]}`), list([...new Set(ways)], i => {
    const c = calls[i], on = c.plus.includes(p);
    return [link(i), on || c.minus.includes(p) ? el("span", on ? "plus" : "minus", on ? " +" : " \u2212") : dim(QUIET[c.hops.find(h => h[0] === p)[1]])];
  }));
  if (h) out.push(title(`How it came to stand so at ${nodes[n]}, last first`), list(chain(p, n), link));
  if (n === presences[p][1] || h && (h[2] !== 1 || !left)) return out;
  const sends = items => list(items, i => {
    const got = takers(i).filter(j => calls[j].node === n && j <= cur && gone[j] > cur);
    return [link(i), ...got.length ? got.flatMap(j => [", ", link(j), warn(" " + remark(calls[j]))]) : [warn(`, not taken by ${nodes[n]}`)]];
  });
  const from = left ? hop(p, presences[p][1])[0] : at[presences[p][0]];
  const more = places.slice(from, cur + 1).filter(i => gone[i] > cur && calls[i].of?.includes(presences[p][1]));
  out.push(title((left ? "Its removal" : "It") + (sent.length ? " was broadcast by" : " is in no broadcast")), sends(sent));
  if (more.length) out.push(title(`Since then ${nodes[presences[p][1]]} was told of by`), sends(more));
  return out;
}

// The lists below the picture
let grid = []; // what each row stands for
const pool = [];
function below() {
  const c = calls[cur] || { node: -1, minus: [], plus: [] }, items = new Map(), texts = [];
  let k = 0, note;
  const put = (cls, n, d) => items.set(cls, (items.get(cls) || "") + `M${X(n)} ${k * ROW + ROW / 2}${d}`);
  const row = (cls, no, text) => {
    const r = pool[k] ||= $("grid").appendChild(el("div", "", el("span", "no"), el("span", "words")));
    r.dataset.k = k++;
    r.className = "srow " + cls;
    // what stays is not laid out again
    if (r.firstChild.textContent !== no) r.firstChild.textContent = no;
    if (r.lastChild.textContent !== text) r.lastChild.textContent = text;
  };
  if (tab === "online") {
    const full = N === 32 ? -1 : (1 << N) - 1, some = order.filter(p => mask[p] || c.minus.includes(p));
    const fresh = new Set([...c.minus, ...c.plus]), want = some.filter(p => !differ || mask[p] !== full || fresh.has(p) || found.has(p));
    grid = [...want.filter(p => found.has(p)), ...want.filter(p => !found.has(p))];
    for (const p of grid) {
      let count = 0;
      for (let n = 0; n < N; n++) {
        const hot = n === c.node && fresh.has(p);
        if (lists(p, n)) { count++; put(hot ? "dot new" : "dot", n, "h0"); }
        else if (hot) put("off", n, CROSS);
      }
      row(found.has(p) ? "hit" : "", `${count}/${N}`, label(p));
    }
    note = `${some.length} online somewhere, ${some.filter(p => mask[p] !== full).length} not everywhere`;
  } else if (tab === "seen") {
    grid = [...nodes.keys()];
    for (const m of grid) {
      const own = now[m][m][1], behind = [];
      nodes.forEach((name, n) => {
        const [status, clock, more] = now[n][m], less = status !== UNKNOWN && clock < own;
        if (less) behind.push(name);
        texts.push(svg("text", { class: "c" + (status === UNKNOWN ? " none" : less ? " behind" : "") + (status === DOWN ? " down" : ""), x: X(n), y: k * ROW + 14 },
          status === UNKNOWN ? "\u00b7" : clock + (more ? "+" : "")));
      });
      row("", nodes[m], `has ${many(own, "dot")}` + (behind.length ? "; behind: " + behind.join(" ") : ""));
    }
    note = "dots seen, + more behind a gap; orange: behind; struck: down; \u00b7 unknown";
  } else {
    grid = places.filter(i => calls[i].sends && (!differ || /lost|not to all/.test(calls[i].notes) || takers(i).some(j => remark(calls[j]))));
    for (const i of grid) {
      const m = calls[i], odd = [];
      put(gone[i] < END ? "m old" : "m", m.node, SQUARE);
      for (const j of takers(i)) {
        const r = remark(calls[j]);
        put(gone[j] < END ? "dot pale" : r ? "dot odd" : "dot", calls[j].node, "h0");
        if (r) odd.push(nodes[calls[j].node] + " " + r);
      }
      for (const n of m.never) put("never", n, "m-3 0h6");
      row(i === cur || i === c.send ? "hit" : i > cur ? "out" : "", String(m.step), `${m.line}, message ${m.sends}${gone[i] < END ? ", taken back" : ""}${odd.length ? ": " + odd.join(", ") : ""}`);
    }
    note = "square: sent, dot: taken, orange: not kept, late, again; dash: never";
  }
  $("now").textContent = note;
  if (!k) row("dim", "", "nothing to show");
  pool.forEach((r, j) => { r.hidden = j >= k; });
  const height = k * ROW, down = n => `M${X(n)} 0V${height}`;
  $("grid").querySelector("svg")?.remove();
  $("grid").prepend(svg("svg", { class: "draw", width, height }, path("column", c.node < 0 ? "" : down(c.node)),
    path("lane", tab === "seen" ? "" : nodes.map((_, n) => down(n)).join("")), ...[...items].map(([cls, d]) => path(cls, d)), ...texts));
}

// The run as a small picture
let still = null, due = false; // the run without the cursor
function small(fresh) {
  if (fresh) still = null;
  if (!due) requestAnimationFrame(() => { due = false; shrink(); });
  due = true;
}
function shrink() {
  const map = $("map"), h = $("time").clientHeight, w = Math.max(36, Math.min(120, 3 * N)), zoom = devicePixelRatio || 1;
  map.hidden = bottom() + top <= h;
  if (map.hidden) return;
  const style = getComputedStyle(map), f = h / shown.length, u = w / N, colours = {};
  const canvas = e => {
    e.width = w * zoom;
    e.height = h * zoom;
    const g = e.getContext("2d");
    g.scale(zoom, zoom);
    const colour = name => { map.style.color = `var(${name})`; return style.color; };
    return [g, (name, ...box) => { g.fillStyle = colours[name] ??= colour(name); g.fillRect(...box); }];
  };
  if (!still || still.height !== Math.floor(h * zoom)) {
    still = el("canvas");
    const [, fill] = canvas(still);
    for (const [n, a, b] of bars) fill("--bar", n * u, line[a] * f, u, ((b === END ? shown.length : line[b]) - line[a]) * f);
    for (const i of shown) {
      const c = calls[i];
      if (c.node >= 0) fill(remark(c) ? "--warn" : c.plus.length ? "--plus" : c.minus.length ? "--minus" : "--dim", c.node * u, line[i] * f, u, Math.max(1, f - 1));
    }
  }
  map.style.width = w + "px";
  map.style.height = h + "px";
  const [g, fill] = canvas(map);
  g.drawImage(still, 0, 0, w, h);
  if (cur >= 0) fill("--sel", 0, line[cur] * f, w, 2);
  g.globalAlpha = 0.15;
  fill("--sel", 0, $("time").scrollTop / ROW * f, w, (h - top) / ROW * f);
}

// Shows the call `cur`; `marked` and `faded` are the elements that are so for it
let marked = [], faded = [];
function show(scroll) {
  marked.forEach(e => { e.classList.remove("here"); e.removeAttribute("aria-selected"); });
  const row = cur >= 0 && rowOf(cur);
  marked = [...document.querySelectorAll(`:is(#heads,#again) [data-n="${calls[cur]?.node}"]`)];
  if (row) {
    marked.push(row);
    row.setAttribute("aria-selected", "true");
    $("time").setAttribute("aria-activedescendant", row.id);
  }
  const time = $("time"), y = cur < 0 ? 0 : line[cur] * ROW, h = time.clientHeight - top;
  if (scroll === "center") time.scrollTop = y - h / 2;
  else if (scroll) time.scrollTop = Math.max(y + ROW - h, Math.min(y, time.scrollTop));
  marked.forEach(e => e.classList.add("here"));
  over();
  step();
  below();
  small();
  clearTimeout(timer);
  timer = setTimeout(() => { try { history.replaceState(null, "", hash(cur)); } catch (e) { } }, 200);
}
function over() {
  const items = [], c = calls[cur];
  const ring = (cls, i, r) => { if (marks[i] && isShown(i)) items.push([cls, Y(i) - r, Y(i) + r, circle(X(calls[i].node), Y(i), r)]); };
  const arrow = (cls, i) => { if (arrows[i]) items.push([cls, ...arrows[i]]); };
  let set = null;
  if (c && c.node >= 0) {
    ring("ring", cur, 9);
    if (c.undoes) ring("ring", at[c.undoes], 9);
    arrow("in", cur);
    takers(cur).forEach(j => arrow("after", j));
    if (c.step && (past || future)) set = new Set([...past ? closure(cur, false) : [], ...future ? closure(cur, true) : []]);
  }
  for (const i of set || []) {
    ring("set", i, 8);
    if (set.has(calls[i].send)) arrow("set", i);
    if (marks[i]) items.push(marks[i]);
  }
  if (why >= 0) for (const p of [...found].filter(isMade).slice(0, 12)) {
    chain(p, why).forEach((i, k, way) => {
      ring("chain", i, 8);
      const from = way[k + 1];
      if (k % 2 === 0) { if (k + 1 < way.length) arrow("chain", i); }
      else if (from !== undefined) items.push(["chain", Y(from), Y(i), `M${X(calls[i].node)} ${Y(from)}V${Y(i)}`]);
    });
  }
  paint("over", items);
  $("time").classList.toggle("faded", !!set);
  faded.forEach(e => e.classList.remove("out"));
  faded = set ? shown.filter(i => !set.has(i)).map(rowOf) : [];
  faded.forEach(e => e.classList.add("out"));
}
function go(k, scroll = "nearest") {
  move(Math.max(-1, Math.min(calls.length - 1, k | 0)));
  show(scroll);
}
function seek(dir, test) {
  for (let k = cur + dir; k >= 0 && k < calls.length; k += dir) if (isShown(k) && test(calls[k])) return go(k);
  if (dir < 0 && test === any) go(-1);
}

// The address behind `#`: `hash` makes it, `show` puts it there, `load` reads it.
let timer = 0;
function hash(i, n = why, text = query) {
  const w = words_of(text).map(encodeURIComponent), out = [calls[i]?.step ? "step=" + calls[i].step : "call=" + (i + 1)];
  if (w.length === 2) out.push("topic=" + w.shift());
  if (w.length) out.push("key=" + w.join("%20"));
  if (w.length && n >= 0) out.push("at=" + encodeURIComponent(own[n]));
  if (tab !== "online") out.push("tab=" + tab);
  for (const [k, v] of Object.entries({ only, past, future })) if (v) out.push(k);
  if (differ !== usual) out.push("differ=" + +differ);
  return "#" + out.join("&");
}
function load() {
  const given = new URLSearchParams(location.hash.slice(1).replaceAll("+", "%2B")), text = ["topic", "key"].map(k => given.get(k)).filter(x => x).join(" ");
  only = given.has("only");
  past = given.has("past");
  future = given.has("future");
  differ = given.has("differ") ? given.get("differ") !== "0" : usual;
  tab = ["seen", "messages"].find(x => x === given.get("tab")) || "online";
  why = own.indexOf(given.get("at"));
  $("find").value = text;
  renew();
  go(at[+given.get("step") || 0] ?? (given.get("call") ?? calls.length) - 1, "center");
}

// Keys and clicks
function press() {
  const on = { only, past, future, keys: !$("help").hidden, online: tab === "online", seen: tab === "seen", messages: tab === "messages" };
  for (const id in on) $(id).setAttribute("aria-pressed", on[id]);
  $("differ").checked = differ;
  $("differ-label").hidden = tab === "seen";
  $("differ-text").textContent = tab === "online" ? "only where nodes differ" : "only with trouble";
}
let looked, laid; // those on the page
function renew() {
  const text = $("find").value;
  if (text === looked && only === laid) return press();
  looked = text;
  look(text);
  if (only || laid !== only) lay();
  laid = only;
  still = null;
  paint("under", bars.map(([n, a, b]) => {
    const end = b === END ? bottom() : Y(b);
    return ["bar", Y(a), end, `M${X(n)} ${Y(a)}V${end}`];
  }));
  press();
}
function find(text, n = -1) {
  $("find").value = text;
  why = n;
  renew();
  show("nearest");
}
const near = () => $("side").scrollIntoView({ block: "nearest" });
const turn = change => () => { change(); press(); show(); };
const act = {
  only() { if (found.size) { only = !only; renew(); show("nearest"); } },
  past: turn(() => { past = !past; }),
  future: turn(() => { future = !future; }),
  differ: turn(() => { differ = !differ; }),
  online: turn(() => { tab = "online"; }),
  seen: turn(() => { tab = "seen"; }),
  messages: turn(() => { tab = "messages"; }),
  keys() { $("help").hidden = !$("help").hidden; $("side").scrollTop = 0; press(); near(); },
};
for (const id in act) $(id).onclick = act[id];
$("find").oninput = () => find($("find").value);
const any = () => true;
const here = c => { const n = calls[cur]?.node ?? 0; return n < 0 || c.node === n; };
const changed = c => [...c.minus, ...c.plus].some(p => !found.size || found.has(p));
const trouble = c => c.notes.some(x => !/undone|all/.test(x));
// Looks for what the step changed; else asks why, at the next node or the one before.
const ask = dir => {
  const c = calls[cur], p = c && [...c.minus, ...c.plus][0];
  if (!found.size && p !== undefined) find(topicKey(p), c.node);
  else if (found.size) { why = (why + 1 + dir + N + 1) % (N + 1) - 1; show(); }
};
const page = dir => go(shown[Math.max(0, Math.min(shown.length - 1, line[Math.max(cur, 0)] + dir))] ?? -1);
const keys = {
  j: () => seek(1, any), k: () => seek(-1, any), l: () => seek(1, here), h: () => seek(-1, here),
  n: () => seek(1, changed), N: () => seek(-1, changed), t: () => seek(1, trouble), T: () => seek(-1, trouble), w: () => ask(1), W: () => ask(-1),
  Home: () => page(-END), End: () => page(END), PageDown: () => page(10), PageUp: () => page(-10),
  "/": () => $("find").select(), Escape: () => $("help").hidden ? find("") : act.keys(),
  o: act.only, p: act.past, f: act.future, d: act.differ, 1: act.online, 2: act.seen, 3: act.messages, "?": act.keys,
};
Object.assign(keys, { ArrowDown: keys.j, ArrowUp: keys.k, ArrowRight: keys.l, ArrowLeft: keys.h });
document.onkeydown = e => {
  if (e.ctrlKey || e.altKey || e.metaKey) return;
  if (e.target === $("find")) {
    if (e.key === "Enter") { $("time").focus(); if (cur < 0 || !changed(calls[cur])) seek(1, changed); }
    if (e.key === "Escape") { $("time").focus(); find(""); }
    return;
  }
  const reading = e.target.closest("#side,#state") && /^(Arrow|Page|Home|End)/.test(e.key);
  if (reading || !Object.hasOwn(keys, e.key)) return;
  e.preventDefault();
  keys[e.key]();
};
$("time").onclick = e => { const row = e.target.closest(".row"); if (row) { go(row.id.slice(1) - 1); near(); } };
const pointed = e => Math.floor((e.clientX - $("grid").getBoundingClientRect().left - 52) / pitch);
$("grid").onmousemove = e => { $("grid").title = nodes[pointed(e)] || ""; };
$("grid").onclick = e => {
  const x = grid[e.target.closest(".srow")?.dataset.k];
  if (x === undefined || tab === "seen") return;
  if (tab === "messages") go(x);
  else find(topicKey(x), nodes[pointed(e)] ? pointed(e) : -1);
};
$("map").onclick = e => go(shown[Math.floor(e.offsetY / $("map").clientHeight * shown.length)] ?? cur, "center");
$("time").onscroll = () => small();
onresize = matchMedia("(prefers-color-scheme:dark)").onchange = () => small(true);
onhashchange = load;

// Put on the page once
const size = [many(N, "node"), many(at.filter(i => i >= 0).length, "step"), many(presences.length, "presence"), ...events ? [many(calls.filter(c => c.online).length, "list")] : []].join(", ");
document.title += ": " + size;
$("sum").append(size);
if (events?.length > calls.length) $("sum").append(warn(`${events.length - calls.length} not recorded (HistoryFull)`));
for (const kind of ["differ", "not asked", "refused", "not kept", "late", "again", "lost", "not to all", "undone"]) {
  const all = places.filter(i => calls[i].notes.includes(kind));
  if (!all.length) continue;
  const b = el("button", /undone|all/.test(kind) ? "plain" : "plain warn", `${all.length} ${kind}`);
  b.onclick = () => go(all.find(i => i > cur) ?? all[0], "center");
  $("sum").append(b);
}
for (const [verb, text] of [["join", "join, update"], ["leave", "leave"], ["send", "a message goes out; its line leads to who took it"], ["deliver", "a message is taken; orange: not kept, late or again"],
  ["up", "up"], ["down", "down"], ["permdown", "permanently down"], ["undo", "a step is taken back; its mark is pale"], ["no", "refused"], ...events ? [["online", "what a node listed; orange: the bench has other rows"]] : []]) {
  $("marks").append(el("dt", "", svg("svg", { width: 14, height: 16 }, path(...mark(verb, 7, 8)))), el("dd", "", text));
}
$("heads").append(heads());
if (N > 8) $("again").append(heads());
for (const pair of new Set(order.map(topicKey))) $("pairs").append(new Option(shownKey(pair), pair));
let peak = Math.max(N, 6);
for (const c of calls) {
  move(cur + 1);
  if (c.plus.length) peak = Math.max(peak, mask.reduce((k, m) => k + (m !== 0), 0));
}
css("--state", (peak + 1) * ROW + (N > 8 ? top : 0));
document.querySelector("main").hidden = false;
$("wait").hidden = true;
load();
})();
"##;
