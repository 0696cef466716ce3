//! The page for a browser.

/// The page, which asks for the counts and the lists, and shows them. It has its script and its style in itself.
pub fn page_text() -> &'static str {
    PAGE
}

const PAGE: &str = r##"<!doctype html>
<html lang="en">
<head>
<meta charset="utf-8">
<meta name="viewport" content="width=device-width, initial-scale=1">
<title>LoRaWAN network server</title>
<style>
:root { color-scheme: light dark; --paper: #fff; --ink: #1a1a1a; --line: #d5d5d5; --soft: #595959; --bad: #b3261e; }
@media (prefers-color-scheme: dark) { :root { --paper: #121212; --ink: #eaeaea; --line: #3c3c3c; --soft: #b4b4b4; --bad: #ff8a80; } }
* { box-sizing: border-box; }
body { margin: 0 auto; max-width: 80rem; padding: 1rem 1.5rem 3rem; font: 15px/1.45 system-ui, sans-serif; background: var(--paper); color: var(--ink); }
header { display: flex; flex-wrap: wrap; align-items: baseline; gap: .25rem 1rem; }
h1 { font-size: 1.35rem; margin: .3rem 0; }
h2 { font-size: 1.05rem; margin: 2rem 0 .5rem; }
h3 { font-size: .95rem; margin: 1.2rem 0 .2rem; }
#state, .soft { color: var(--soft); }
#state.bad { color: var(--bad); font-weight: 600; }
body.gone main { opacity: .55; }
#tiles { display: grid; grid-template-columns: repeat(auto-fill, minmax(9.5rem, 1fr)); gap: .6rem; margin: 1rem 0; padding: 0; list-style: none; }
#tiles li { border: 1px solid var(--line); border-radius: .5rem; padding: .5rem .75rem; }
#tiles b { display: block; font-size: 1.3rem; font-variant-numeric: tabular-nums; }
#tiles span { color: var(--soft); font-size: .85rem; }
#tiles .bad b, #tiles .bad span { color: var(--bad); }
.bar { display: flex; flex-wrap: wrap; gap: .5rem 1rem; align-items: center; margin-bottom: .5rem; }
::placeholder { color: var(--soft); opacity: 1; }
.bar input { font: inherit; padding: .3rem .6rem; border: 1px solid var(--soft); border-radius: .4rem; width: 17rem; max-width: 100%; background: transparent; color: inherit; }
.wide { overflow-x: auto; }
table { border-collapse: collapse; width: 100%; font-variant-numeric: tabular-nums; }
th, td { text-align: right; padding: .3rem .6rem; border-bottom: 1px solid var(--line); white-space: nowrap; }
th { font-size: .85rem; padding: 0; }
th button { font: inherit; font-weight: 600; color: var(--soft); background: none; border: 0; padding: .35rem .6rem; cursor: pointer; }
th[aria-sort] button { color: var(--ink); }
th[aria-sort=descending] button::after { content: " \25be"; }
th[aria-sort=ascending] button::after { content: " \25b4"; }
th.id, td.id { text-align: left; }
td.id { font-family: ui-monospace, "DejaVu Sans Mono", monospace; font-size: .92em; }
td.none { color: var(--soft); text-align: left; padding: 1rem .6rem; white-space: normal; }
td.bad { color: var(--bad); font-weight: 600; }
dl { margin: 0; }
dl div { display: grid; grid-template-columns: minmax(8rem, 18rem) 7rem 1fr; gap: 0 1rem; border-bottom: 1px solid var(--line); padding: .2rem 0; }
dt { overflow-wrap: anywhere; }
dd { margin: 0; }
dd.n { text-align: right; font-variant-numeric: tabular-nums; }
dd.why { color: var(--soft); }
summary { color: var(--soft); cursor: pointer; padding: .3rem 0; }
footer { margin-top: 2rem; color: var(--soft); font-size: .85rem; }
a { color: inherit; }
.hidden { position: absolute; width: 1px; height: 1px; overflow: hidden; clip-path: inset(50%); white-space: nowrap; }
@media (max-width: 40rem) {
  body { padding: .6rem .7rem 2rem; }
  th, td { padding: .3rem .2rem; }
  th button { padding: .4rem .2rem; }
  td.id { font-size: .82em; }
  #devices td:nth-child(2) { white-space: normal; min-width: 5.5rem; }
  #tiles { grid-template-columns: 1fr 1fr; }
  dl div { grid-template-columns: 1fr auto; }
  dd.why { grid-column: 1 / 3; font-size: .85rem; }
}
</style>
</head>
<body>
<header><h1>LoRaWAN network server</h1><span id="state">asking ..</span></header>
<div id="news" class="hidden" role="status" aria-live="polite"></div>
<noscript><p>This page needs JavaScript. Without it read <a href="/metrics">/metrics</a>, <a href="/devices">/devices</a> and <a href="/gateways">/gateways</a>.</p></noscript>
<main>
<ul id="tiles" aria-label="At a glance"></ul>
<h2 id="d">Devices</h2>
<div class="bar"><input id="find" type="search" placeholder="DevEUI, address or gateway" aria-label="Find devices by DevEUI, address or gateway"><span id="shown" class="soft"></span></div>
<div class="wide"><table id="devices" aria-labelledby="d"></table></div>
<h2 id="g">Gateways</h2>
<div class="bar"><span id="heard" class="soft"></span></div>
<div class="wide"><table id="gateways" aria-labelledby="g"></table></div>
<h2>Counts since the start</h2>
<div id="counts"></div>
</main>
<footer>Read alone, asked for every 5 s, or less often where an answer takes long. The same for programs: <a href="/metrics">/metrics</a>, <a href="/devices">/devices</a>, <a href="/gateways">/gateways</a>, <a href="/healthz">/healthz</a></footer>
<script>
"use strict";
const MOST = 200, EVERY = 5000, PAGE = 8192, LIMIT = 15000, TITLE = document.title;
const at = id => document.getElementById(id);
const known = new Map();
let now = 0, startMs = 0, sinceMs = null, began = 0, list = [], gateways = [], isGone = false;

function made(name, text, kind) {
  const e = document.createElement(name);
  if (text !== undefined) e.textContent = text;
  if (kind) e.className = kind;
  return e;
}
function since(ms) {
  const s = Math.max(0, Math.floor(ms / 1000));
  if (s < 60) return s + " s";
  if (s < 3600) return Math.floor(s / 60) + " min";
  if (s < 86400) return Math.floor(s / 3600) + " h " + Math.floor(s % 3600 / 60) + " min";
  return Math.floor(s / 86400) + " d " + Math.floor(s % 86400 / 3600) + " h";
}
const ago = (ms, none) => ms === null ? none : since(now - ms) + " ago";
const clock = ms => ms === null ? "" : new Date(startMs + ms).toLocaleString();
const number = n => n === null || n === undefined ? "-" : n.toLocaleString("en").replace(/,/g, "\u2009");
const text = t => t === null ? "-" : t;

const tables = {
  devices: { by: "devEui", up: true, shown: "", columns: [
    ["devEui", "DevEUI", d => d.devEui, "id"],
    ["heardMs", "Heard", d => ago(d.heardMs, d.session === null ? "not joined" : "not since the start")],
    ["missed", "Missed", d => d.session === null ? "-" : number(d.missed)],
    ["fCnt", "Last FCnt", d => number(d.fCnt)],
    ["devAddr", "DevAddr", d => text(d.devAddr), "id"],
    ["session", "Session", d => number(d.session)],
    ["sinceMs", "Known since", d => d.session === null ? "-" : ago(d.sinceMs, "before the start")],
    ["gatewayId", "By gateway", d => text(d.gatewayId), "id"]] },
  gateways: { by: "gatewayId", up: true, shown: "", columns: [
    ["gatewayId", "Gateway", g => g.gatewayId, "id"],
    ["heardMs", "Last frame", g => ago(g.heardMs, "-")],
    ["pullMs", "Last PULL_DATA", g => ago(g.pullMs, "-")],
    ["statMs", "Last stat", g => ago(g.statMs, "-")],
    ["frames", "Frames", g => number(g.frames)],
    ["sent", "Downlinks", g => number(g.sent)],
    ["refused", "Refused", g => number(g.refused)],
    ["airtimeMs", "Airtime of the last hour", g => (g.airtimeMs / 1000).toFixed(1) + " s, " + (g.airtimeMs / 36000).toFixed(2) + " %"]] } };

function sorted(rows, table) {
  const { by, up } = table, low = up ? -1 : 1;
  return rows.sort((a, b) => {
    const x = a[by], y = b[by];
    if (x === y) return 0;
    if (x === null) return 1;
    if (y === null) return -1;
    return x < y ? low : -low;
  });
}
function head(name) {
  const table = tables[name], row = made("tr");
  for (const [key, title, , kind] of table.columns) {
    const th = made("th", undefined, kind), button = made("button", title);
    th.scope = "col";
    if (key === table.by) th.setAttribute("aria-sort", table.up ? "ascending" : "descending");
    button.type = "button";
    button.onclick = () => {
      table.up = key === table.by ? !table.up : true;
      table.by = key;
      at(name).tHead.replaceWith(head(name));
      at(name).tHead.querySelector("[aria-sort] button").focus();
      show();
    };
    th.append(button);
    row.append(th);
  }
  const thead = made("thead");
  thead.append(row);
  return thead;
}
// Writes what differs, so that a selection and the place of a reader stay.
function set(e, value, kind, title) {
  if (e.textContent !== value) e.textContent = value;
  if (e.className !== kind) e.className = kind;
  if (e.title !== title) e.title = title;
}
function draw(name, rows, none) {
  const table = tables[name], e = at(name);
  if (!e.tHead) e.append(head(name), made("tbody"));
  const body = e.tBodies[0];
  if (rows.length === 0) {
    const td = made("td", none, "none"), tr = made("tr");
    td.colSpan = table.columns.length;
    tr.append(td);
    if (body.textContent !== none) body.replaceChildren(tr);
    return;
  }
  if (body.querySelector(".none")) body.replaceChildren();
  while (body.rows.length > rows.length) body.deleteRow(-1);
  rows.forEach((row, place) => {
    const tr = body.rows[place] || body.insertRow();
    table.columns.forEach(([key, , value, kind], column) => {
      const isBad = key === "missed" && row.missed > 0 || key === "refused" && row.refused > 0;
      set(tr.cells[column] || tr.insertCell(), value(row), kind || (isBad ? "bad" : ""), key.endsWith("Ms") && key !== "airtimeMs" ? clock(row[key]) : "");
    });
  });
}
function isSelecting() {
  const selection = getSelection();
  return !selection.isCollapsed && at("devices").parentNode.parentNode.contains(selection.anchorNode);
}
function show() {
  if (isSelecting()) return;
  const word = at("find").value.trim().toLowerCase().replace(/^0x/, "").replace(/[:\-\s]/g, "");
  const has = t => t !== null && t.includes(word);
  const found = word ? list.filter(d => has(d.devEui) || has(d.devAddr) || has(d.gatewayId)) : list.slice();
  draw("devices", sorted(found, tables.devices).slice(0, MOST), list.length ? "No device has that." : "The roster has no device.");
  const shown = Math.min(found.length, MOST);
  const line = shown < found.length ? number(shown) + " of " + number(found.length) + " are shown: find, or sort by a column" : number(shown) + " shown";
  if (at("shown").textContent !== line) at("shown").textContent = line;
  draw("gateways", sorted(gateways.slice(), tables.gateways).slice(0, MOST), "No gateway was heard since the start.");
  at("heard").textContent = gateways.length > MOST ? number(MOST) + " of " + number(gateways.length) + " are shown" : number(gateways.length) + " heard since the start";
}

const GROUPS = [
  ["Uplinks", "What came of frames from devices.", [
    ["replies reply=opened", "new uplinks", "frames with a new counter; each is written once"],
    ["open_windows", "uplinks waiting for copies", "heard, and written once other gateways had time to hear them"],
    ["replies reply=closed", "uplinks done", "those whose copies were gathered"],
    ["replies reply=copied", "copies", "the same frame by another gateway, or again"],
    ["replies reply=again", "confirmed uplinks that came again", "acknowledged again; many of them: acknowledgements do not reach the devices"],
    ["replies reply=nosession", "frames of no session", "of devices that have not joined here, or of another network"],
    ["replies reply=old", "replayed or very late frames", "nothing to do"],
    ["replies reply=busy", "uplinks too many at once", "of one device within a window; a smaller --window helps"],
    ["replies reply=crowded", "copies too many at once", "more than 16 of one frame"],
    ["replies reply=nowindow", "windows that were closed already", "nothing to do"],
    ["late_datagrams", "late copies", "a gateway's way is slow; a greater --window helps"]]],
  ["Joins", "What came of Join-Requests.", [
    ["replies reply=accepted", "joins", "each begins a session"],
    ["replies reply=ask", "Join-Requests sent on", "the join server was asked"],
    ["open_tickets", "joins waiting for the join server", ""],
    ["replies reply=joinrefused", "joins without a session", "the join server refused, was silent, or its answer has a fault"],
    ["unanswered_joins", "joins without an answer", "the join server was silent, or refused; the log says why"],
    ["stale_tickets", "Join-Requests too old to ask about", "more --join-workers help"],
    ["replies reply=nodevice", "Join-Requests of unknown devices", "another network's, or one to be added to the roster"],
    ["replies reply=nonceold", "Join-Requests with an old nonce", "a replay, or a device whose nonces began again"],
    ["replies reply=joincopied", "copies of Join-Requests", ""],
    ["replies reply=joincrowded", "copies of Join-Requests too many at once", ""],
    ["replies reply=joinbusy", "Join-Requests too many at once", "of one device; more --join-workers help"],
    ["replies reply=joinstale", "answers to older Join-Requests", "the device has the newer session"],
    ["replies reply=noticket", "answers to nothing", ""]]],
  ["Datagrams", "What came by the sockets, and what was lost.", [
    ["datagrams", "datagrams of frames", ""],
    ["lost_datagrams", "lost by the system", "the buffer of the socket was full: the machine is too slow, or rmem too small"],
    ["dropped_datagrams", "dropped for want of memory", ""],
    ["failed_receives", "receives that failed", ""],
    ["unsent_downlinks", "downlinks not sent", "no gateway asked for them, or the socket failed"],
    ["unwritten_lines", "lines that standard output did not take", "the record has the uplinks among them"],
    ["refusals fault=G1", "G1: shorter than 28 bytes", ""], ["refusals fault=G2", "G2: another version", ""],
    ["refusals fault=G3", "G3: a downlink", ""], ["refusals fault=G4", "G4: another length", ""],
    ["refusals fault=G5", "G5: frequency not of EU868", "the gateway's band plan"], ["refusals fault=G6", "G6: data rate not of EU868", "the gateway's band plan"],
    ["refusals fault=V1", "V1: frame too short", "noise"], ["refusals fault=V2", "V2: major version", "another protocol"],
    ["refusals fault=V3", "V3: type of frame", "proprietary, or a downlink that a gateway overheard"], ["refusals fault=V4", "V4: options too long", "noise"],
    ["refusals fault=V5", "V5: length of a Join-Request", "noise"], ["refusals fault=V6", "V6: frame too long", ""]]],
  ["Packet forwarders", "What they sent, and what they said of downlinks.", [
    ["forwarder_messages kind=push", "PUSH_DATA", "frames and status"], ["forwarder_messages kind=pull", "PULL_DATA", "asks for downlinks"],
    ["forwarder_messages kind=tx_ack", "TX_ACK", "what came of a downlink"], ["forwarder_acknowledged_messages", "messages acknowledged", ""],
    ["forwarder_frames", "frames", ""],
    ["forwarder_downlinks outcome=tx_ok", "downlinks sent", ""],
    ["forwarder_downlinks outcome=TOO_LATE", "TOO_LATE", "the downlink came too late: a slow join server, or a long way to the gateway"],
    ["forwarder_downlinks outcome=TOO_EARLY", "TOO_EARLY", "its time is not of this gateway's counter"],
    ["forwarder_downlinks outcome=COLLISION_PACKET", "COLLISION_PACKET", "the gateway sends something else then"],
    ["forwarder_downlinks outcome=COLLISION_BEACON", "COLLISION_BEACON", "the gateway sends a beacon then"],
    ["forwarder_downlinks outcome=TX_FREQ", "TX_FREQ", "the gateway does not send at this frequency"],
    ["forwarder_downlinks outcome=TX_POWER", "TX_POWER", "the gateway does not send with this power: --power"],
    ["forwarder_downlinks outcome=GPS_UNLOCKED", "GPS_UNLOCKED", ""], ["forwarder_downlinks outcome=tx_other", "another error", "the forwarder's log"],
    ["forwarder_refusals fault=F1", "F1: message over 16,384 bytes", ""], ["forwarder_refusals fault=F2", "F2: message too short", "another protocol"],
    ["forwarder_refusals fault=F3", "F3: another version", "another protocol"], ["forwarder_refusals fault=F4", "F4: another kind of message", "another protocol"],
    ["forwarder_refusals fault=F5", "F5: more than 255 frames", ""], ["forwarder_refusals fault=F6", "F6: no JSON", ""],
    ["forwarder_refusals fault=F7", "F7: a field is missing or wrong", "the debug log names it"], ["forwarder_refusals fault=F8", "F8: wrong CRC", "noise; some is usual"],
    ["forwarder_refusals fault=F9", "F9: no CRC", "no LoRaWAN uplink; some is usual"], ["forwarder_refusals fault=F10", "F10: not of EU868", "the gateway's band plan"],
    ["forwarder_refusals fault=F11", "F11: downlink not of EU868", ""], ["forwarder_refusals fault=no_memory", "no memory", ""]]]];

function count(name, value, why) {
  const div = made("div");
  div.append(made("dt", name), made("dd", number(value), "n"), made("dd", why, "why"));
  return div;
}
function readCounts(answer) {
  const of = {};
  for (const line of answer.split("\n")) {
    const parts = /^(?:lorawan_)?(\w+?)(?:_total)?(?:\{(\w+)="([^"]*)"\})? ([0-9.]+)$/.exec(line);
    if (parts) of[parts[1] + (parts[2] ? " " + parts[2] + "=" + parts[3] : "")] = Number(parts[4]);
  }
  return of;
}
function showCounts(of) {
  if (isSelecting()) return;
  const open = new Set([...document.querySelectorAll("#counts details[open]")].map(e => e.id)), all = [];
  GROUPS.forEach(([title, what, rows], place) => {
    const there = rows.filter(row => of[row[0]] !== undefined), zero = there.filter(row => of[row[0]] === 0);
    if (there.length === 0) return;
    const dl = made("dl");
    for (const [key, name, why] of there) if (of[key] !== 0) dl.append(count(name, of[key], why));
    all.push(made("h3", title), made("div", what, "soft"), dl);
    if (zero.length === 0) return;
    const details = made("details"), rest = made("dl");
    details.id = "zero" + place;
    details.open = open.has(details.id);
    for (const [, name, why] of zero) rest.append(count(name, 0, why));
    details.append(made("summary", zero.length + " more, all 0"), rest);
    all.push(details);
  });
  at("counts").replaceChildren(...all);
}
function showTiles(of) {
  const lost = of["lost_datagrams"] + of["dropped_datagrams"] + of["failed_receives"];
  const tiles = [[of["device_last_heard_age_seconds_bucket le=90000"], "of " + number(of["devices"]) + " devices heard within 25 h"], [of["gateways"], "gateways heard"],
    [of["replies reply=opened"], "new uplinks"], [of["datagrams"], "datagrams"], [of["open_windows"], "uplinks waiting for copies"],
    [of["open_tickets"], "joins waiting for the join server"], [lost, "datagrams lost", lost > 0]];
  at("tiles").replaceChildren(...tiles.map(([value, name, isBad]) => {
    const tile = made("li", undefined, isBad ? "bad" : "");
    tile.append(made("b", number(value)), made("span", name));
    return tile;
  }));
}
async function get(path) {
  const stop = new AbortController(), timer = setTimeout(() => stop.abort(), LIMIT);
  try {
    const answer = await fetch(path, { cache: "no-store", signal: stop.signal });
    if (!answer.ok) throw new Error(path + ": " + answer.status);
    return path === "/metrics" ? await answer.text() : await answer.json();
  } finally {
    clearTimeout(timer);
  }
}
// All devices at first, in pieces, and then those of which something became known since.
async function askDevices() {
  if (sinceMs !== null) {
    const answer = await get("/devices?since=" + sinceMs);
    if (answer.startMs === startMs) {
      for (const d of answer.devices) known.set(d.devEui, d);
      return answer;
    }
  }
  known.clear();
  let first = null, answer;
  do {
    const last = [...known.keys()].pop();
    answer = await get("/devices?limit=" + PAGE + (last ? "&after=" + last : ""));
    if (first === null) first = answer;
    for (const d of answer.devices) known.set(d.devEui, d);
  } while (answer.devices.length === PAGE);
  return first;
}
function tell(line, isBad) {
  at("state").className = isBad ? "bad" : "";
  at("state").textContent = line;
  if (isBad !== isGone) at("news").textContent = isBad ? "The server gives no answer. What is shown is old." : "The server answers again.";
  isGone = isBad;
  document.body.classList.toggle("gone", isBad);
  document.title = (isBad ? "No answer - " : "") + TITLE;
}
async function ask() {
  const asked = Date.now();
  try {
    const of = readCounts(await get("/metrics"));
    const heard = await get("/gateways");
    const devices = await askDevices();
    ({ nowMs: now, startMs } = devices);
    sinceMs = devices.nowMs;
    gateways = heard.gateways;
    list = [...known.values()];
    began = of["process_start_time_seconds"] * 1000;
    tell("running for " + since(startMs + now - began) + ", since " + new Date(began).toLocaleString(), false);
    showTiles(of);
    showCounts(of);
    show();
  } catch (e) {
    sinceMs = null;
    tell((e.name === "AbortError" ? "no answer within " + LIMIT / 1000 + " s" : "no answer: " + e.message) + (began ? "; what is shown is of " + clock(now) : ""), true);
  }
  setTimeout(ask, isGone ? EVERY : Math.max(EVERY, 10 * (Date.now() - asked)));
}
at("find").oninput = show;
ask();
</script>
</body>
</html>
"##;
