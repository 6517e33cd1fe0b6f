//! What each page of a trace has: its parts, and its own script, which is not proved.

/// What is beside the lanes, up to the text that is shown.
pub const PARTS: &str = r##"<div id="parts">
<section><h2>The text</h2><table id="lines"></table></section>
<section>
<h2>CPUs</h2><table id="cpus"></table><h2>Queues</h2><div id="queues"></div>
<h2>Stops</h2><div id="stops"></div><h2>Gate, keys and sites</h2><div id="labels"></div>
</section>
<section><h2>The verdict on the whole</h2><pre id="verdict" style="white-space: pre-wrap; overflow-wrap: anywhere"></pre></section>
</div>
<footer>
<p>Proved: this page's source has the verdict of Jutegranite's judge, and the events that the judge has read.
A trace is its own list of events. For a kernel's text, the source has each event up to a refused one, with the line that tells it.
Not proved: the script of this page, which works out lanes and lists from these events.</p>
<p>In the lanes: a large dot: a function runs, &#9675; a CPU looks, &#9670; it takes the gate or its queue, &#9679; any other event,
a cross: the event that is refused. A solid line goes from the queueing of a call to its run, a dashed one from an interrupt to
the CPU that takes it; a dotted bar: interrupts are off.</p>
</footer>
<noscript><p>Without JavaScript this page shows nothing. Its source has the text, the events and the verdict.</p></noscript>
<script type="text/plain" id="text">"##;

/// Up to the lines of events.
pub const BEFORE_EVENTS: &str = r##"</script>
<script type="text/plain" id="events">"##;

/// Up to the verdict.
pub const BEFORE_VERDICT: &str = r##"</script>
<script type="text/plain" id="said">"##;

/// What is known after each event, its lists, and what the lanes have.
pub const TRACE: &str =
    r##"// The data: a byte that could end it, or can't be printed, is there by its number.
const utf8 = new TextDecoder();
const decoded = (text) => text.replace(/(\\\d{3})+/g, (run) => utf8.decode(Uint8Array.from(run.slice(1).split('\\'), Number)));
const dataLines = (id) => byId(id).textContent.replace(/\n$/, '').split('\n');
const said = decoded(byId('said').textContent);
const broken = /^line (\d+): CPU \d+ \S+: (.*)/.exec(said);
byId('verdict').textContent = said;

// The text: its lines; of a trace also its head. In a kernel's text each line tells the event of its place.
const isKernel = byId('events').textContent !== '';
const lines = dataLines('text').map(decoded).slice(0, broken && !isKernel ? Number(broken[1]) : undefined);
const HEAD = /^(labels|without|#.*|)( |$)/;
const rows = isKernel ? dataLines('events') : lines.map((text, n) => `${n + 1} ${text}`).filter((row, n) => n > 1 && !HEAD.test(lines[n]));
const numberOfLine = (row) => (isKernel ? Number(rows[row].split(' ')[0]) : row + 1);
const LINE_HEAD = 'what it tells';
const headOf = (name) => (lines.slice(1, 4).find((line) => line.startsWith(`${name} `)) || '').split(' ').slice(1);
const left = new Set(isKernel ? ['gate', 'interrupts', 'order', 'raises', 'switches', 'unlocks'] : headOf('without'));
const [keyCount = '0', items = '-'] = isKernel ? [] : headOf('labels');
const sites = items === '-' ? [] : items.split(',').map((item) => item.split(':').map(Number));

// Before version 3 a stop has the number of the CPU that opens it.
const hasNumbers = isKernel || lines[0] === 'smp 3 trace';
function eventOf(text, number) {
  const [line, cpu, name, ...args] = text.split(' ');
  const told = [name, ...args].join(' ');
  if (!hasNumbers && (name === 'open' || name === 'collect')) args.unshift(cpu);
  return { number, line: Number(line), row: isKernel ? number : line - 1, cpu: Number(cpu), name, args, told, isRefused: false };
}
const events = rows.map(eventOf);
if (broken && events.length) events[events.length - 1].isRefused = true;
const named = isKernel ? [] : listed(headOf('cpus')[1] || '-');
const online = named.length && named.length <= 32 ? named : [...new Set(events.map((event) => event.cpu))].sort((a, b) => a - b);

// What the model has after some events.
function beginning() {
  const [keys, kinds] = [Array(Number(keyCount)).fill(0), sites.map(([, branch]) => (branch ? 'JMP' : 'NOP'))];
  return { cpus: new Map(), gate: null, stops: new Map(), keys, kinds };
}
const cpuOf = (state, cpu) => {
  const fresh = { queue: [], others: [], batch: [], current: null, pending: false, accepted: false, irq: true, inside: null };
  if (!state.cpus.has(cpu)) state.cpus.set(cpu, { ...fresh, owes: new Set() });
  return state.cpus.get(cpu);
};
// What a call or a stop is to do: by the kernel's own names, where its line has them.
function whatOf(event, numbers) {
  if (!isKernel) return numbers;
  return [...lines[event.row].matchAll(/\b(?:csd|func|fn)=[^\s,)]+/g)].map(([named]) => named).join(', ');
}
const stopIn = (state, cpu) => state.stops.get(cpu.inside);
function runs(cpu, call, progress) {
  cpu.queue = cpu.queue.filter((one) => one !== call);
  cpu.batch = cpu.batch.filter((one) => one !== call);
  cpu.current = { call, progress };
}
// A record that is seen free: an unlock that is left out has unlocked it.
function slip(state, id) {
  for (const cpu of left.has('unlocks') ? state.cpus.values() : []) {
    const call = (left.has('order') ? cpu.queue : cpu.batch.slice(0, 1)).find((one) => one.id === id && one.kind !== 'sync');
    if (call && !cpu.current) runs(cpu, call, 'is unlocked');
  }
}
// Wakes and irq work share a queue, and are no calls.
const isOther = ({ name, args }) => name === 'queue' && args.length === 2;
function owe(state, cpu, to) {
  const { queue, others } = cpuOf(state, to);
  if (queue.length + others.length === 0) cpu.owes.add(to);
}
const acts = {
  queue(state, cpu, event) {
    const { cpu: source, args: [id, to, kind, func, info] } = event;
    if (isOther(event)) {
      if (left.has('order')) return;
      owe(state, cpu, Number(id));
      cpuOf(state, Number(id)).others.push(to);
      return;
    }
    slip(state, id);
    const target = cpuOf(state, Number(to));
    owe(state, cpu, Number(to));
    target.queue.push({ id, kind, source, what: whatOf(event, `function ${func}, info ${info}`) });
  },
  free(state, cpu, { args: [id] }) { slip(state, id); },
  send(state, cpu, { args: [to] }) { cpuOf(state, Number(to)).pending = true; cpu.owes.delete(Number(to)); },
  accept(state, cpu) { Object.assign(cpu, { pending: false, accepted: true }); },
  take(state, cpu) {
    const of = (kind) => cpu.queue.filter((call) => call.kind === kind);
    Object.assign(cpu, { batch: [...of('sync'), ...of('async')], queue: [], others: [], accepted: false });
  },
  unlock(state, cpu) { if (cpu.current) cpu.current = null; else runs(cpu, cpu.batch[0], 'is unlocked'); },
  begin(state, cpu, { args: [id] }) {
    const call = cpu.current ? cpu.current.call : (left.has('order') ? cpu.queue : cpu.batch).find((one) => one.id === id);
    runs(cpu, call, 'runs');
  },
  end(state, cpu) {
    const stays = cpu.current.call.kind === 'sync' && !left.has('unlocks');
    cpu.current = stays ? { ...cpu.current, progress: 'has ended' } : null;
  },
  gate(state, cpu, event) { state.gate = event.cpu; },
  ungate(state) { state.gate = null; },
  open(state, cpu, event) {
    const [number, kind, mask, active, func, arg] = event.args;
    const lists = { acked: new Map(), ran: new Set(), answers: new Map() };
    const task = { kind, mask: listed(mask), active: listed(active), what: whatOf(event, `function ${func}, argument ${arg}`) };
    state.stops.set(Number(number), { ...task, ...lists, source: event.cpu, phase: kind === 'one' ? 0 : 1, raiser: null });
  },
  enter(state, cpu, event) { cpu.inside = Number(event.args[0]); },
  ack(state, cpu, event) {
    const [stop, phase] = [stopIn(state, cpu), Number(event.args[0])];
    stop.acked.set(event.cpu, phase);
    const isLast = stop.mask.every((one) => (stop.acked.get(one) || 0) >= phase);
    if (isLast && left.has('raises')) stop.phase += 1;
    if (isLast && !left.has('raises')) stop.raiser = event.cpu;
    if (left.has('switches') && phase === 2) cpu.irq = false;
    if (left.has('switches') && phase === 4) cpu.irq = stop.raiser !== event.cpu;
  },
  raise(state, cpu, { args: [phase] }) {
    Object.assign(stopIn(state, cpu), { phase: Number(phase), raiser: null });
    if (left.has('switches') && phase === '5') cpu.irq = true;
  },
  off(state, cpu) { cpu.irq = false; },
  on(state, cpu) { cpu.irq = true; },
  run(state, cpu, event) { stopIn(state, cpu).ran.add(event.cpu); },
  complete(state, cpu, event) { stopIn(state, cpu).answers.set(event.cpu, event.args[0]); cpu.inside = null; },
  collect(state, cpu, { args: [number] }) { state.stops.delete(Number(number)); },
  set(state, cpu, { args: [key, count] }) { state.keys[key] = Number(count); },
  turn(state, cpu, { args: [site, kind] }) { state.kinds[site] = kind; },
  nudge(state, cpu, { args: [key, way] }) { state.keys[key] += way === 'up' ? 1 : -1; },
};
function after(state, event) {
  const cpu = cpuOf(state, event.cpu);
  if (!event.isRefused && acts[event.name]) acts[event.name](state, cpu, event);
  return state;
}

// What lasts, and the arrows.
(function walk() {
  const state = beginning();
  const open = new Map();
  const sources = new Map();
  const close = (key, last) => { if (open.has(key)) open.get(key).last = last; open.delete(key); };
  const begin = (key, cpu, first, style, text) => { open.set(key, { cpu, first, last: Infinity, style, text }); spans.push(open.get(key)); };
  const turns = (key, cpu, number, is, style, text) => {
    if (open.has(key) && open.get(key).text !== text) close(key, number - 1);
    if (is && !open.has(key)) begin(key, cpu, number, style, text);
    if (!is) close(key, number);
  };
  for (const event of events) {
    const { cpu, number, name, args: [id] } = event;
    const of = name === 'open' || name === 'collect' ? Number(id) : cpuOf(state, cpu).inside;
    const known = state.stops.get(of);
    after(state, event);
    const { current, inside, irq } = cpuOf(state, cpu);
    turns(`stop ${cpu}`, cpu, number, inside !== null, 'box stop', `stop ${inside}`);
    turns(`call ${cpu}`, cpu, number, current !== null, 'box handle', `record ${current && current.call.id}`);
    turns(`off ${cpu}`, cpu, number, !irq, 'off', 'interrupts off');
    const stop = state.stops.get(of);
    const { source } = stop || known || event;
    turns(`phase ${of}`, source, number, stop !== undefined && events.length > 30, 'phase', `phase ${stop && stop.phase}`);
    if (name === 'queue' && !isOther(event)) sources.set(`call ${id}`, event);
    if (name === 'begin') link(sources, `call ${id}`, event, 'call');
    if (name === 'send') sources.set(`intr ${id}`, event);
    if (name === 'accept') link(sources, `intr ${cpu}`, event, 'interrupt');
  }
}());
const looks = { free: 'load', idle: 'load', key: 'load', site: 'load', begin: 'run', run: 'run', gate: 'swap', take: 'swap' };
const shapeOf = (event) => (event.isRefused ? 'error' : looks[event.name] || 'store');
const belowOf = (event) => escaped(event.name.slice(0, 5));

// The lists beside the lanes.
const PHASES = ['no phase', 'PREPARE', 'DISABLE_IRQ', 'RUN', 'EXIT', 'all have left'];
function callText(call) {
  const what = `${call.kind.toUpperCase()} of CPU ${call.source}, ${call.what}`;
  return `<b>${escaped(call.id)}</b> <span class="soft">${escaped(what)}</span>`;
}
const chainText = (calls) => calls.map(callText).join(' &#8594; ');
function queuesText(state) {
  const items = [];
  for (const number of allCpus(state)) {
    const { queue, others, batch } = cpuOf(state, number);
    const owed = allCpus(state).filter((other) => cpuOf(state, other).owes.has(number));
    const why = !left.has('interrupts') && owed.length ? ` (CPU ${maskText(owed)} owes an interrupt)` : '';
    if (queue.length) items.push(`queue of CPU ${number}, oldest first${why}: ${chainText(queue)}`);
    if (others.length) items.push(`in the queue of CPU ${number}${queue.length ? '' : why}, no calls: ${others.join(', ')}`);
    if (batch.length) items.push(`batch that CPU ${number} took, in its order: ${chainText(batch)}`);
  }
  return list(items) || 'Every queue is empty, and so is every batch.';
}
function stopText(number, stop, state) {
  const among = (is) => maskText(stop.mask.filter(is));
  const what = escaped(`of CPUs ${maskText(stop.mask)}, active ${maskText(stop.active)}${stop.what ? ', ' : ''}${stop.what}`);
  const phase = stop.phase > 0 ? [`phase ${stop.phase}: <b>${PHASES[stop.phase]}</b>`,
    `acknowledged: ${among((cpu) => (stop.acked.get(cpu) || 0) >= stop.phase)}`] : [];
  const items = [
    ...phase, `in it: ${among((cpu) => cpuOf(state, cpu).inside === number)}`, `interrupts off: ${among((cpu) => !cpuOf(state, cpu).irq)}`,
    `function has run: ${among((cpu) => stop.ran.has(cpu))}`, `completed: ${among((cpu) => stop.answers.has(cpu))}`,
  ];
  return `stop ${number}, opened by CPU ${stop.source}, ${escaped(stop.kind)}, ${what}${list(items)}`;
}
const stopsText = (state) => list([...state.stops].sort(([a], [b]) => a - b).map(([number, stop]) => stopText(number, stop, state))) || 'No stop is open.';
function labelsText(state) {
  const gate = left.has('gate') ? [] : [`the gate: ${state.gate === null ? 'free' : `held by CPU ${state.gate}`}`];
  const keys = state.keys.map((count, key) => `key ${key}: count ${count}, ${count ? 'on' : 'off'}`);
  const kinds = sites.map(([key, branch], site) => `site ${site} (key ${key}, branch ${branch}): ${state.kinds[site]}`);
  return list([...gate, ...keys, ...kinds]) || 'None is told.';
}
function cpuText(state, number) {
  const cpu = cpuOf(state, number);
  const held = cpu.accepted ? 'accepted' : cpu.pending ? 'pending' : '-';
  const call = cpu.current ? `record ${cpu.current.call.id} ${cpu.current.progress}` : '-';
  const stop = cpu.inside === null ? '-' : `${cpu.inside}, acknowledged ${stopIn(state, cpu).acked.get(number) || 0}`;
  return cells([number, cpu.irq ? 'on' : 'off', held, call, stop], events[at].cpu === number ? NOW : '');
}
const cpusText = (state) => rowsText(['CPU', 'interrupts', 'interrupt', 'call', 'in the stop'], allCpus(state).map((cpu) => cpuText(state, cpu)));
const notes = {
  queue: 'The call joins a queue: record, target, class, function, info.', free: 'The record is seen unlocked.', send: 'An interrupt is sent.',
  accept: 'The CPU takes the interrupt that is pending.', idle: 'The CPU finds no interrupt.', take: 'The CPU takes its whole queue.',
  unlock: 'The record is unlocked.', begin: 'The function of the call is entered: record, function, info.', end: 'The function has returned.',
  gate: 'The CPU takes the gate of the stops.', ungate: 'The gate is given up.',
  open: 'The stop is open: in version 3 its number, then kind, mask, active, function, argument.',
  enter: 'The CPU is in the stop of this number.', ack: 'The phase is acknowledged.', raise: 'The phase is raised.', off: 'Interrupts go off.',
  on: 'Interrupts go on.', run: 'The function of the stop is entered: function, argument.', complete: 'The CPU completes with this answer.',
  collect: 'The result of the stop is collected.', set: 'A patch stores the count of a key.', turn: 'A patch turns a site.', key: 'The CPU reads a key.',
  site: 'The CPU reads a site.', nudge: 'The CPU changes a count by one.',
};
function toldText(event) {
  const number = `Event <a href="#event-${event.number}">${event.number}</a> of 0 to ${events.length - 1}`;
  const why = event.isRefused ? ` &#10007; <b>refused: ${escaped(broken[2])}</b>` : '';
  const note = isOther(event) ? 'What is no call joins the queue of this CPU.' : notes[event.name] || '';
  const where = `line ${event.line} of the text. ${note}`;
  return `${number}, CPU ${event.cpu}: <code>${escaped(event.told)}</code>${why}<br><span class="soft">${where}</span>`;
}

// The pieces of the page, and the ways to go on and back that are not by event.
const pageTitle = () => `A trace of ${events.length} events on CPUs ${maskText(online)}: it is ${broken ? 'not ' : ''}lawful`;
const partTexts = { cpus: cpusText, queues: queuesText, stops: stopsText, labels: labelsText };
const hasRecord = (event) => /^(queue|free|unlock|begin|end)$/.test(event.name) && !isOther(event);
const ownMoves = {
  'event of this CPU': { back: 'P', on: 'p', is: (event, now) => event.cpu === now.cpu },
  'event of this record': { back: 'R', on: 'r', is: (event, now) => hasRecord(event) && (!hasRecord(now) || event.args[0] === now.args[0]) },
  function: { back: 'F', on: 'f', is: (event) => event.name === 'begin' || event.name === 'run' },
};
const opensAt = () => (broken ? events.length - 1 : 0);

"##;
