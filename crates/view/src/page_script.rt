//! The script of each page, whatever it shows. It is not proved.

/// What the page's own script uses, which is behind it.
pub const HELPERS: &str = r##"</script>
<script>
'use strict';
const byId = (id) => document.getElementById(id);
const escaped = (text) => String(text).replace(/[&<>"]/g, (c) => `&#${c.charCodeAt(0)};`);
const maskBits = (mask) => [...Array(32).keys()].filter((c) => (Number(mask) >>> c) & 1);
function listed(list) {
  const found = [];
  for (const part of list === '-' ? [] : list.split(',')) {
    const [low, high = low] = part.split('-').map(Number);
    for (let c = low; c <= high; c += 1) found.push(c);
  }
  return found.sort((a, b) => a - b);
}
function maskText(cpus) {
  const runs = [];
  for (const cpu of cpus) {
    const run = runs[runs.length - 1];
    if (run && run[1] === cpu - 1) run[1] = cpu; else runs.push([cpu, cpu]);
  }
  return runs.map(([low, high]) => (low === high ? `${low}` : `${low}-${high}`)).join(',') || 'none';
}
const list = (items) => (items.length ? `<ul>${items.map((item) => `<li>${item}</li>`).join('')}</ul>` : '');
const rowsText = (head, rows) => `<tr>${head.map((name) => `<th scope="col">${name}</th>`).join('')}</tr>${rows.join('')}`;
const cells = (values, attributes = '') => `<tr ${attributes}>${values.map((value) => `<td>${escaped(value)}</td>`).join('')}</tr>`;
const allCpus = (state) => [...new Set([...online, ...state.cpus.keys()])].sort((a, b) => a - b);
const NOW = 'class="now" aria-current="true"';

// What lasts from one event to another, and the arrows: found once, by one walk along all events.
const spans = [];
const arrows = [];
function link(sources, key, event, style) {
  if (sources.has(key)) arrows.push({ from: sources.get(key), to: event, style });
  sources.delete(key);
}

"##;

/// The lanes, and going on and back: the end of the page.
pub const LANES: &str = r##"// The lanes: rows of columns, and at most WINDOW events at once.
const WINDOW = 420;
const LEFT = 52;
const wide = events.length <= 30;
const STEP = wide ? 28 : 14;
const IN_ROW = wide ? 30 : 60;
const LANE = 46;
const shapes = { begin: 'M-4-4L3 0L-4 4Z', swap: 'M0-6L6 0L0 6L-6 0Z', error: 'M-5-5L5 5M5-5L-5 5' };
shapes.load = 'M-4 0a4 4 0 1 0 8 0a4 4 0 1 0-8 0Z';
shapes.run = 'M-7 0a7 7 0 1 0 14 0a7 7 0 1 0-14 0Z';
shapes.store = shapes.load;
shapes.lost = shapes.swap;
const small = (x, y, text) => `<text class="soft" text-anchor="middle" x="${x}" y="${y}">${text}</text>`;
const middle = (row, number) => LEFT + STEP * (number - row.first) + STEP / 2;
function spanText(row, span) {
  const first = Math.max(span.first, row.first);
  const last = Math.min(span.last, row.last);
  const [x, width, y] = [LEFT + STEP * (first - row.first), STEP * (last - first + 1), row.tops.get(span.cpu)];
  const text = escaped(span.text.slice(0, Math.max(0, Math.floor((width - 4) / 6))));
  if (span.style === 'phase') return `<text class="soft" x="${x + 1}" y="${y + LANE - 3}">${text}</text>`;
  if (span.style === 'off') return `<rect class="off" x="${x}" y="${y + 31}" width="${width}" height="5"><title>interrupts off</title></rect>`;
  const title = `<title>${escaped(span.text)}</title>`;
  return `<rect class="${span.style}" x="${x}" y="${y + 2}" width="${width}" height="28">${title}</rect><text x="${x + 2}" y="${y + 11}">${text}</text>`;
}
// An arrow whose other end is in another row leaves this one at its lower edge, or comes from its upper one.
function arrowText(row, arrow) {
  const isIn = (event) => event.number >= row.first && event.number <= row.last;
  const at = (event) => (isIn(event) ? [middle(row, event.number), row.tops.get(event.cpu) + 21] : null);
  const [from, to] = [at(arrow.from), at(arrow.to)];
  const [x, y] = from || [to[0], row.base - 3];
  const [tipX, tipY] = to || [x, row.base + row.tops.size * LANE];
  const back = tipY < y ? 8 : -8;
  const tip = to ? `M${tipX - 4} ${tipY + back}L${tipX} ${tipY}L${tipX + 4} ${tipY + back}` : '';
  return `<path class="${arrow.style}" d="M${x} ${y}L${tipX} ${tipY}${tip}"><title>${arrow.style}: ${arrow.from.number} to ${arrow.to.number}</title></path>`;
}
function dotText(row, event) {
  const [x, y] = [middle(row, event.number), row.tops.get(event.cpu) + 21];
  const shape = shapeOf(event);
  const below = wide ? small(x, y + 19, belowOf(event)) : '';
  const title = `<title>${event.number}: CPU ${event.cpu} ${escaped(event.told)}</title>`;
  const place = `transform="translate(${x} ${y})" d="${shapes[shape]}"`;
  return `<path class="dot ${shape}" data-event="${event.number}" ${place}>${title}</path>${below}`;
}
// A row of the window: which events, which CPUs, and where.
function rowsOf(first, end) {
  const rows = [];
  let base = 14;
  for (let from = first; from < end; from += IN_ROW) {
    const last = Math.min(from + IN_ROW, end) - 1;
    const inside = events.slice(from, last + 1);
    const lasting = spans.filter((span) => span.first <= last && span.last >= from);
    const cpus = [...new Set([...inside, ...lasting].map((one) => one.cpu))].sort((a, b) => a - b);
    const row = { first: from, last, base, inside, lasting, tops: new Map(cpus.map((cpu, n) => [cpu, base + n * LANE])) };
    rows.push(row);
    base += cpus.length * LANE + 22;
  }
  return rows;
}
const laneText = (cpu, y) => `<rect class="lane" y="${y}" width="${LEFT + STEP * IN_ROW}" height="${LANE - 2}"/><text x="4" y="${y + 24}">CPU ${cpu}</text>`;
function rowText(row) {
  const isIn = ({ number }) => number >= row.first && number <= row.last;
  const numbered = row.inside.filter(({ number }) => wide || number % 5 === 0);
  return [
    ...[...row.tops].map(([cpu, y]) => laneText(cpu, y)),
    ...numbered.map(({ number }) => small(middle(row, number), row.base - 4, number)),
    ...row.lasting.map((span) => spanText(row, span)),
    ...arrows.filter(({ from, to }) => isIn(from) || isIn(to)).map((arrow) => arrowText(row, arrow)),
    ...row.inside.map((event) => dotText(row, event)),
  ].join('');
}
let drawn = { from: -1, rows: [], row: null };
function drawLanes(at) {
  const from = Math.floor(at / WINDOW) * WINDOW;
  if (drawn.from !== from) {
    const rows = rowsOf(from, Math.min(from + WINDOW, events.length));
    const last = rows[rows.length - 1];
    const height = last.base + last.tops.size * LANE + 4;
    const mark = '<rect class="mark" id="mark-now"/><text id="arrow-now" text-anchor="middle">&#9650;</text>';
    const head = `<svg width="${LEFT + STEP * IN_ROW + 4}" height="${height}" role="img" aria-label="Events ${from} to ${last.last}">`;
    byId('lanes').innerHTML = `${head}${rows.map(rowText).join('')}${mark}</svg>`;
    drawn = { from, rows, row: null };
  }
  const row = drawn.rows.find((one) => at <= one.last);
  const put = (id, values) => Object.entries(values).forEach(([name, value]) => byId(id).setAttribute(name, value));
  const height = row.tops.size * LANE;
  put('mark-now', { x: LEFT + STEP * (at - row.first), y: row.base, width: STEP, height });
  put('arrow-now', { x: middle(row, at), y: row.base + height + 9 });
  if (row !== drawn.row) byId('lanes').scrollTop = row.base - 14;
  drawn.row = row;
}

function linesText(event) {
  const first = Math.max(0, Math.min(event.row - 8, lines.length - 17));
  const row = (text, n) => cells([n === event.row ? '>' : '', numberOfLine(n), text], n === event.row ? NOW : '');
  const rows = lines.slice(first, first + 17).map((text, n) => row(text, first + n));
  return rowsText(['', 'line', LINE_HEAD], rows);
}

// Going on and back.
let at = -1;
let state = beginning();
// The address follows a little later: browsers refuse to change it at each of many quick steps.
let linking = 0;
function show(number) {
  const target = Math.max(0, Math.min(events.length - 1, number));
  if (target < at) [state, at] = [beginning(), -1];
  while (at < target) { at += 1; after(state, events[at]); }
  byId('told').innerHTML = toldText(events[at]);
  byId('slider').value = at;
  for (const [id, text] of Object.entries(partTexts)) byId(id).innerHTML = text(state);
  byId('lines').innerHTML = linesText(events[at]);
  drawLanes(at);
  clearTimeout(linking);
  linking = setTimeout(() => history.replaceState(null, '', `#event-${at}`), 200);
}
const moves = { event: { back: 'ArrowLeft', on: 'ArrowRight', is: () => true }, ...ownMoves };
function go(by, is) {
  for (let n = at + by; n >= 0 && n < events.length; n += by) if (is(events[n], events[at])) return show(n);
  return undefined;
}
const jumps = { Home: () => show(0), End: () => show(events.length - 1) };
for (const { back, on, is } of Object.values(moves)) Object.assign(jumps, { [back]: () => go(-1, is), [on]: () => go(1, is) });
const keyNames = { ArrowLeft: '&#8592;', ArrowRight: '&#8594;' };
const button = (key, text) => `<button type="button" data-key="${key}" aria-label="${text}" title="${text}"><kbd>${keyNames[key] || key}</kbd></button>`;
function buttonsText() {
  const pairs = Object.entries(moves).map(([name, { back, on }]) => `${name} ${button(back, `back one ${name}`)}${button(on, `next ${name}`)}`);
  return [`first ${button('Home', 'first event')}`, ...pairs, `last ${button('End', 'last event')}`].map((move) => `<span>${move}</span>`).join(' ');
}
function start() {
  const fromLink = () => { const found = /^#event-(\d+)$/.exec(location.hash); return found ? Number(found[1]) : null; };
  byId('title').textContent = pageTitle();
  document.title = pageTitle();
  if (events.length === 0) { byId('told').textContent = 'There is no event.'; return; }
  byId('buttons').innerHTML = buttonsText();
  byId('slider').max = events.length - 1;
  byId('slider').addEventListener('input', (event) => show(Number(event.target.value)));
  byId('buttons').addEventListener('click', (event) => { const found = event.target.closest('button'); if (found) jumps[found.dataset.key](); });
  byId('lanes').addEventListener('click', (event) => { if (event.target.dataset.event) show(Number(event.target.dataset.event)); });
  window.addEventListener('hashchange', () => { if (fromLink() !== null) show(fromLink()); });
  document.addEventListener('keydown', (event) => {
    if (event.ctrlKey || event.altKey || event.metaKey || !jumps[event.key] || (event.target === byId('slider') && event.key.length > 1)) return;
    event.preventDefault();
    jumps[event.key]();
  });
  show(fromLink() ?? opensAt());
}
start();
</script>
</body>
</html>
"##;
