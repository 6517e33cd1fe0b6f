//! What each page of a replay has: its parts, and its own script, which is not proved.

/// What is beside the lanes, up to the script that is shown.
pub const PARTS: &str = r##"<div id="parts">
<section><h2>The script</h2><table id="lines"></table></section>
<section>
<h2>CPUs</h2><table id="cpus"></table><h2>Queues</h2><div id="queues"></div><h2>Held</h2><div id="held"></div>
<h2>Stops</h2><div id="stops"></div><h2>Keys and sites</h2><div id="labels"></div>
</section>
<section><h2>Words that are not 0</h2><table id="words"></table></section>
</div>
<footer>
<p>Proved: the line of each event in this page's source is what the machine of Jutegranite, which is proved, answers to the script.
Not proved: the script of this page, which works out lanes, words and lists from these lines.
A word has the number that was last put into it.</p>
<p>In the lanes: &#9656; a command begins, &#9675; load, &#9679; store, &#9670; swap, and, sub, or a cas that won, &#9671; a cas that lost,
a large dot: a function runs, a cross: an error. A solid line goes from the queueing of a call to its run,
a dashed one from an interrupt to the step that takes it; a dotted bar: interrupts are off.</p>
</footer>
<noscript><p>Without JavaScript this page shows nothing. Its source has the script, and a line for each event:
its number, the script's line, the CPU, what was found, what was put, and what the step did.</p></noscript>
<script type="text/plain" id="script">"##;

/// Up to the lines of events.
pub const BEFORE_EVENTS: &str = r##"</script>
<script type="text/plain" id="events">"##;

/// Up to the number of the event at which the page opens.
pub const BEFORE_MARK: &str = r##"</script>
<script type="text/plain" id="mark">"##;

/// What is known after each event, its lists, and what the lanes have.
pub const REPLAY: &str = r##"// The script: its lines, the CPUs online, the keys and the sites.
const lines = byId('script').textContent.trimEnd().split('\n');
const numberOfLine = (row) => row + 1;
const LINE_HEAD = 'what it asks for';
const online = listed(lines[1].split(' ')[2]);
const labels = (lines[2] || '').startsWith('labels ') ? lines[2].split(' ') : ['labels', '0', '-'];
const sites = labels[2] === '-' ? [] : labels[2].split(',').map((item) => item.split(':').map(Number));

// The events, one a line of the data; the line of a `show` tells of nothing.
const ENDS = (note) => note !== '' && !/^(call|run) /.test(note);
function eventOf(row) {
  const [number, line, cpu, found, put, ...rest] = row.split(' ');
  const told = rest.join(' ');
  const [act, word] = rest;
  const [, note = ''] = told.split(' ; ');
  const kind = told === 'starts' ? 'begin' : act === 'refused:' ? 'refused' : 'step';
  const text = lines[line - 1];
  const numbers = { number: Number(number), line: Number(line), row: line - 1, cpu: Number(cpu), found, put };
  const parts = kind === 'step' ? word.split('.') : [];
  return { ...numbers, told, act, word, parts, kind, note: note.replace(/ \(.*/, ''), command: text.split(' ').slice(2).join(' ') };
}
const events = byId('events').textContent.split('\n').filter((row) => row.trimEnd().split(' ').length > 5).map(eventOf);

// What is known after some events: the words, and what each CPU is in.
function beginning() {
  const words = new Map();
  sites.forEach(([key, branch], site) => {
    words.set(`entry.${site}`, String(2 * key + branch + 1));
    if (branch) words.set(`site.${site}`, '1');
  });
  return { words, cpus: new Map(), open: new Set(), changed: null };
}
const wordOf = (state, word) => state.words.get(word) || '0';
const cpuOf = (state, cpu) => {
  if (!state.cpus.has(cpu)) state.cpus.set(cpu, { command: '', steps: 0, off: false, stop: null, phase: 0, batch: [] });
  return state.cpus.get(cpu);
};
// The records from this head on, along the next links.
function chain(state, head) {
  const found = [];
  for (let next = Number(head); next > 0 && found.length < 1000; next = Number(wordOf(state, `next.${next - 1}`))) found.push(next - 1);
  return found;
}
function stepOf(state, cpu, event) {
  const [name, index, field] = event.parts;
  if (event.act === 'swap' && name === 'head') cpu.batch = chain(state, event.found).reverse();
  const isOver = name === 'flags' && event.put === '0' && cpu.command === 'handle';
  if (isOver) cpu.batch = cpu.batch.filter((id) => id !== Number(index));
  if (name === 'slot' && field === 'kind' && event.act === 'store') state.open.add(Number(index));
  if (field === 'state' && event.act === 'load' && event.found === '2' && event.note === '') cpu.off = true;
  const [said, phase] = event.note.split(' ');
  if (said === 'entered') { cpu.stop = Number(index); cpu.phase = 0; }
  if (said === 'moved') cpu.phase = Number(phase);
  if (said === 'ran') cpu.phase = 3;
  if (said === 'left') { cpu.phase = 4; cpu.off = false; }
  if (said === 'finished') cpu.stop = null;
  if (said === 'result') state.open.delete(Number(index));
}
function after(state, event) {
  const cpu = cpuOf(state, event.cpu);
  state.changed = null;
  if (event.kind === 'begin') Object.assign(cpu, { command: event.command, steps: 0 });
  if (event.kind !== 'step') return state;
  cpu.steps += 1;
  stepOf(state, cpu, event);
  if (event.put !== '-') {
    state.changed = { word: event.word, before: wordOf(state, event.word) };
    state.words.set(event.word, event.put);
  }
  if (ENDS(event.note)) cpu.command = '';
  return state;
}

// What lasts, and the arrows.
const styles = { post: 'post', send: 'send', handle: 'handle', done: 'ask', poll: 'ask', key: 'ask', site: 'ask', nudge: 'nudge' };
const styleOf = (command) => `box ${styles[command.split(' ')[0]] || 'stop'}`;
(function walk() {
  const state = beginning();
  const open = new Map();
  const sources = new Map();
  const close = (key, last) => { if (open.has(key)) open.get(key).last = last; open.delete(key); };
  const begin = (key, span) => { open.set(key, span); spans.push(span); };
  for (const event of events) {
    const { cpu, number, note, act, parts: [name, index, field] } = event;
    const wasOff = cpuOf(state, cpu).off;
    event.inside = cpuOf(state, cpu).command;
    after(state, event);
    event.steps = cpuOf(state, cpu).steps;
    if (event.kind === 'begin') begin(`command ${cpu}`, { cpu, first: number, last: number, style: styleOf(event.command), text: event.command });
    if (event.kind === 'step' && open.has(`command ${cpu}`)) open.get(`command ${cpu}`).last = number;
    if (note === 'left') close(`off ${cpu}`, number);
    if (!wasOff && cpuOf(state, cpu).off) begin(`off ${cpu}`, { cpu, first: number, last: Infinity, style: 'off', text: 'interrupts off' });
    if (field === 'state' && act === 'store') {
      close(`phase ${index}`, number - 1);
      const span = { cpu: Number(index), first: number, last: Infinity, style: 'phase', text: `phase ${event.put}` };
      if (event.put > '0' && event.put < '5') begin(`phase ${index}`, span);
    }
    if (name === 'head' && act === 'cas' && event.put !== '-') sources.set(`call ${event.put - 1}`, event);
    if (note.startsWith('call ')) link(sources, `call ${name === 'hand' ? event.put - 2 : index}`, event, 'call');
    if (name === 'intr' && note === 'sent') sources.set(`intr ${index}`, event);
    if (name === 'intr' && act === 'swap') link(sources, `intr ${index}`, event, 'interrupt');
  }
}());

function shapeOf(event) {
  if (event.kind === 'begin') return 'begin';
  if (event.kind === 'refused' || /^E\d/.test(event.note)) return 'error';
  if (/^(call|run) /.test(event.note)) return 'run';
  if (event.act === 'load' || event.act === 'store') return event.act;
  return event.put === '-' ? 'lost' : 'swap';
}
function belowOf(event) {
  const number = event.put !== '-' ? event.put : event.found;
  return event.kind === 'step' && number.length < 5 ? number : '';
}

// What numbers of words mean.
const PHASES = ['no phase', 'PREPARE', 'DISABLE_IRQ', 'RUN', 'EXIT', 'all have left'];
const ownerOf = (id) => (id < 384 ? Math.floor(id / 12) : Math.floor((id - 384) / 24));
const localOf = (id) => (id < 384 ? id % 12 : ((id - 384) % 24) + 12);
const recordOf = (id) => `record ${id} (CPU ${ownerOf(id)}'s ${localOf(id)})`;
const classOf = (flags) => (Number(flags) & 16 ? 'SYNC' : 'ASYNC');
const meanings = {
  gate: (n) => (n > 0 ? `held by CPU ${n - 1}` : 'free'),
  head: (n) => (n > 0 ? recordOf(n - 1) : 'empty'),
  next: (n) => (n > 0 ? recordOf(n - 1) : 'no more'),
  intr: (n) => (n > 0 ? 'pending' : ''),
  hand: (n) => ['nothing', 'handles'][n] || `runs ${recordOf(n - 2)}`,
  flags: (n) => (n > 0 ? `${n % 2 ? 'LOCK, ' : ''}${classOf(n)}` : ''),
  key: (n) => (n > 0 ? 'on' : 'off'),
  entry: (n) => (n > 0 ? `key ${(n - 1) >> 1}, branch ${(n - 1) & 1}` : ''),
  site: (n) => (n > 0 ? 'JMP' : 'NOP'),
  kind: (n) => ['one', 'multi', 'patch'][n],
  state: (n) => PHASES[n],
  result: (n) => (n >= 2 ** 31 ? String(n - 2 ** 32) : ''),
  mask: (n) => maskText(maskBits(n)),
};
meanings.active = meanings.mask;
meanings.roll = meanings.mask;
function meaningOf(word, number) {
  const [name, , field] = word.split('.');
  return (meanings[field || name] || (() => ''))(Number(number));
}
const notes = {
  owed: 'The queue was empty: an interrupt is owed.', queued: 'The queue was not empty: no interrupt is owed.', sent: 'An interrupt is pending.',
  done: 'The record is unlocked, or the count has changed.', locked: 'The record is still locked.', idle: 'There was no interrupt.',
  call: 'The function runs after this step: source, function, info.', handled: 'The batch has run.', gate: 'The gate is won.',
  taken: 'Somebody holds the gate.', open: 'The gate is given up.', begun: 'The stop is open.', entered: 'The CPU is in the stop.',
  same: 'There is no new phase.', moved: 'The phase is acknowledged.', run: 'The function of the stop runs after this step: function, argument.',
  ran: 'The function has run; RUN is acknowledged.', left: 'EXIT is acknowledged; interrupts are on again.', finished: 'The CPU has completed.',
  pending: 'Not all have completed.', result: 'The stop is collected.', on: 'The key is on.', off: 'The key is off.', NOP: 'The site goes on.',
  JMP: 'The site jumps.', stop: 'The key would turn, which takes a stop.', lost: 'The count was changed meanwhile.',
};

// The lists beside the lanes.
function indexesOf(state, name) {
  const found = [...state.words.keys()].filter((word) => word.startsWith(`${name}.`) && wordOf(state, word) !== '0');
  return found.map((word) => Number(word.split('.')[1])).sort((a, b) => a - b);
}
function recordText(state, id) {
  const [flags, func, info, next] = ['flags', 'func', 'info', 'next'].map((name) => wordOf(state, `${name}.${id}`));
  return `<b>${id}</b> <span class="soft">${classOf(flags)} of CPU ${ownerOf(id)}, function ${func}, info ${info}, next ${next}</span>`;
}
const chainText = (state, ids) => ids.map((id) => recordText(state, id)).join(' &#8594; ');
function queuesText(state) {
  const items = [];
  for (const cpu of allCpus(state)) {
    const head = wordOf(state, `head.${cpu}`);
    const { batch } = cpuOf(state, cpu);
    if (head !== '0') items.push(`queue of CPU ${cpu}, newest first: head ${head} &#8594; ${chainText(state, chain(state, head))}`);
    if (batch.length) items.push(`batch that CPU ${cpu} took, oldest first: ${chainText(state, batch)}`);
  }
  return list(items) || 'Every queue is empty, and so is every batch.';
}
function placeOf(state, id) {
  for (const cpu of allCpus(state)) {
    if (wordOf(state, `hand.${cpu}`) === String(id + 2)) return `runs on CPU ${cpu}`;
    if (cpuOf(state, cpu).batch.includes(id)) return `in the batch of CPU ${cpu}`;
    if (chain(state, wordOf(state, `head.${cpu}`)).includes(id)) return `in the queue of CPU ${cpu}`;
  }
  return `held by CPU ${ownerOf(id)}`;
}
function heldText(state) {
  const locked = indexesOf(state, 'flags').filter((id) => Number(wordOf(state, `flags.${id}`)) % 2 === 1);
  const gate = `the gate: ${meaningOf('gate', wordOf(state, 'gate'))}`;
  const pending = `pending interrupts, by their CPU: ${maskText(indexesOf(state, 'intr'))}`;
  return list([gate, pending, ...locked.map((id) => `${recordOf(id)}, locked: ${placeOf(state, id)}`)]);
}
function stopText(state, slot) {
  const field = (name) => wordOf(state, `slot.${slot}.${name}`);
  const says = (name) => meaningOf(`slot.${slot}.${name}`, field(name));
  const inside = allCpus(state).filter((cpu) => cpuOf(state, cpu).stop === slot);
  const among = (is) => maskText(inside.filter((cpu) => is(cpuOf(state, cpu))));
  const phase = Number(field('state'));
  const acknowledged = `acknowledged: ${among((cpu) => phase > 0 && cpu.phase >= phase)}; ${field('ack')} have not`;
  const items = [
    `phase ${phase}: <b>${PHASES[phase]}</b>`, ...(phase > 0 && phase < 5 ? [acknowledged] : []), `CPUs that have not entered: ${says('roll')}`,
    `interrupts off: ${among((cpu) => cpu.off)}`, `${field('todo')} not completed, result ${field('result')}, done ${field('done')}`,
  ];
  const what = `of CPUs ${says('mask')}, active ${says('active')}, function ${field('func')}, argument ${field('arg')}`;
  return `stop of CPU ${slot}, ${says('kind')}, ${what}${list(items)}`;
}
const stopsText = (state) => list([...state.open].sort((a, b) => a - b).map((slot) => stopText(state, slot))) || 'No stop is open.';
function labelsText(state) {
  const told = (word) => meaningOf(word, wordOf(state, word));
  const keys = [...Array(Number(labels[1])).keys()].map((key) => `key ${key}: count ${wordOf(state, `key.${key}`)}, ${told(`key.${key}`)}`);
  const kinds = sites.map(([key, branch], site) => `site ${site} (key ${key}, branch ${branch}): ${told(`site.${site}`)}`);
  return list([...keys, ...kinds]) || 'The script has none.';
}
function cpuText(state, number) {
  const cpu = cpuOf(state, number);
  const inside = cpu.command ? `${cpu.command}, step ${cpu.steps}` : '-';
  const stop = cpu.stop === null ? '-' : `of CPU ${cpu.stop}, acted on phase ${cpu.phase}`;
  const hand = meaningOf(`hand.${number}`, wordOf(state, `hand.${number}`));
  return cells([number, inside, cpu.off ? 'off' : 'on', hand, stop], events[at].cpu === number ? NOW : '');
}
const cpusText = (state) => rowsText(['CPU', 'inside', 'interrupts', 'handles', 'in the stop'], allCpus(state).map((cpu) => cpuText(state, cpu)));
// Words in the order of their tables; those of a record are together.
const ORDER = ['gate', 'slot', 'key', 'entry', 'site', 'head', 'intr', 'hand', 'queued', 'ran', 'record'];
const FIELDS = ['kind', 'mask', 'active', 'flags', 'func', 'info', 'next', 'arg', 'state', 'ack', 'roll', 'todo', 'result', 'done'];
function rankOf(word) {
  const [name, index = 0, more = 0] = word.split('.');
  const [group, place] = ORDER.includes(name) ? [ORDER.indexOf(name), more] : [ORDER.indexOf('record'), name];
  return (group * 2000 + Number(index)) * 2000 + (FIELDS.includes(place) ? FIELDS.indexOf(place) : Number(place));
}
function wordsText(state) {
  const { changed } = state;
  const words = [...state.words.keys()].filter((word) => wordOf(state, word) !== '0' || (changed && changed.word === word));
  const rows = words.sort((a, b) => rankOf(a) - rankOf(b)).map((word) => {
    const isNew = changed && changed.word === word;
    const number = wordOf(state, word);
    const values = isNew ? ['*', word, number, `was ${changed.before}`] : ['', word, number, ''];
    return cells([...values, meaningOf(word, number)], `data-word="${word}"${isNew ? ' class="new"' : ''}`);
  });
  return rows.length ? rowsText(['', 'word', 'number', 'before', 'meaning'], rows) : '<tr><td>All words are 0.</td></tr>';
}
function toldText(event) {
  const note = notes[event.note.split(' ')[0]] || '';
  const what = event.kind === 'begin' ? `begins <code>${escaped(event.command)}</code>` : `<code>${escaped(event.told)}</code>`;
  const inside = event.kind === 'step' ? `step ${event.steps} of ${escaped(event.inside)}; ` : '';
  const number = `Event <a href="#event-${event.number}">${event.number}</a> of 0 to ${events.length - 1}`;
  return `${number}, CPU ${event.cpu}: ${what}<br><span class="soft">${inside}line ${event.line} of the script. ${note}</span>`;
}

// The pieces of the page, and the ways to go on and back that are not by event.
const pageTitle = () => `A replay of ${events.length} events on CPUs ${maskText(online)}, step by step`;
const partTexts = { cpus: cpusText, queues: queuesText, held: heldText, stops: stopsText, labels: labelsText, words: wordsText };
const ownMoves = {
  command: { back: 'C', on: 'c', is: (event) => event.kind === 'begin' },
  'event of this CPU': { back: 'P', on: 'p', is: (event, now) => event.cpu === now.cpu },
  note: { back: 'N', on: 'n', is: (event) => event.note !== '' || event.kind === 'refused' },
};
const opensAt = () => Number(byId('mark').textContent) || 0;

"##;
