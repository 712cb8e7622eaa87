/// The JavaScript of a page. It reads the moves and the schedule from the page, and shows the state after each line.
pub(crate) const SCRIPT: &str = r##"'use strict';
(() => {
  const FIRST = 2; // the line of the first call: line 1 is the header
  const MANY = 200; // with more granted regions the lanes show shares in place of bars
  const CHECKPOINT = 1000;
  const STAGES = ['start', 'claimed', 'filling', 'filled', 'settled'];
  const NAMES = ['as at the start', 'claimed', 'being filled', 'filled', 'settled'];
  const DOES = ['', 'has claimed', 'fills', 'has filled', '']; // what a worker does with a region in hand
  const [START, CLAIMED, FILLING, FILLED, SETTLED] = STAGES.keys();
  const element = (id) => document.getElementById(id);

  // The numbers of regions, of those to fill and of those of the dense prefix; the pairs of destination and other source; and
  // for each destination its sources, each with the number of words that are written once all from there are.
  const readMoves = (text) => {
    const rows = text.trim().split('\n').map((row) => row.split(' '));
    const [, regions, , filled, , prefix] = rows[0];
    const [pairs, readers, places, sources] = [[], new Map(), new Map(), new Map()];
    rows.slice(1).forEach((row) => {
      const [destination, source, end] = row.map(Number);
      sources.set(destination, [...(sources.get(destination) || []), [source, end]]);
      if (source === destination) return;
      readers.set(source, [...(readers.get(source) || []), pairs.length]);
      places.set(destination + ' ' + source, pairs.length);
      pairs.push([destination, source]);
    });
    return { regions: Number(regions), filled: Number(filled), prefix: Number(prefix), pairs, readers, places, sources };
  };

  const readSchedule = (text) => {
    const rows = text.trim().split('\n');
    const calls = rows.slice(1).map((row) => {
      const words = row.split(' ');
      const numbers = words.slice(2, -1).map(Number);
      return { worker: Number(words[0]), verb: words[1], region: numbers[0], other: numbers[1], reply: words[words.length - 1], row };
    });
    return { workers: Number(rows[0].split(' ')[2]), calls };
  };

  const moves = readMoves(element('moves').textContent);
  const { workers, calls } = readSchedule(element('schedule').textContent);
  const last = calls.length + 1;
  const granted = new Map();
  calls.forEach((call, i) => {
    if (call.verb === 'claim' && call.reply === 'yes' && !granted.has(call.region)) {
      granted.set(call.region, { worker: call.worker, line: i + FIRST });
    }
  });

  // For each region its stage, its owner, the number of regions that have still to read it, and its written words.
  class State {
    constructor(other) {
      const copy = (list, fresh) => (other ? list.slice() : fresh());
      this.stage = copy(other && other.stage, () => new Uint8Array(moves.regions));
      this.owner = copy(other && other.owner, () => new Int8Array(moves.regions).fill(-1));
      this.written = copy(other && other.written, () => new Uint32Array(moves.regions));
      this.drained = copy(other && other.drained, () => new Uint8Array(moves.pairs.length));
      this.pending = copy(other && other.pending, () =>
        Uint8Array.from({ length: moves.regions }, (_, r) => (moves.readers.get(r) || []).length));
      this.unsettled = other ? other.unsettled : moves.filled;
    }

    apply(call) {
      const { worker, verb, region, other, reply } = call;
      if (verb === 'claim' && reply === 'yes') {
        this.stage[region] = CLAIMED;
        this.owner[region] = worker;
      } else if (verb === 'drain') {
        this.stage[region] = FILLING;
        this.drained[moves.places.get(region + ' ' + other)] = 1;
        this.pending[other] -= 1;
      } else if (verb === 'copy') {
        this.stage[region] = FILLING;
        this.written[region] += other;
      } else if (verb === 'complete') {
        this.stage[region] = FILLED;
      } else if (verb === 'settle') {
        this.stage[region] = SETTLED;
        this.unsettled -= 1;
      }
    }

    // The regions that have still to read this one.
    readersOf(region) {
      const places = moves.readers.get(region) || [];
      return places.filter((place) => !this.drained[place]).map((place) => moves.pairs[place][0]);
    }

    // The regions that a worker has in hand.
    heldBy(worker) {
      const held = [];
      this.owner.forEach((owner, r) => {
        if (owner === worker && this.stage[r] !== SETTLED) held.push(r);
      });
      return held;
    }
  }

  const between = Math.max(CHECKPOINT, Math.ceil(calls.length / 200));
  const checkpoints = [new State()];
  {
    const state = new State();
    calls.forEach((call, i) => {
      state.apply(call);
      if ((i + 1) % between === 0) checkpoints.push(new State(state));
    });
  }

  // The state after the calls up to this line. After line 1 nothing has happened.
  const stateAfter = (line) => {
    const done = line - 1;
    const state = new State(checkpoints[Math.floor(done / between)]);
    for (let i = done - (done % between); i < done; i += 1) state.apply(calls[i]);
    return state;
  };

  const list = (regions) => (regions.length === 1
    ? 'region ' + regions[0] + ' has' : 'regions ' + regions.join(' and ') + ' have') + ' still to read it';
  const isToFill = (region) => region < moves.filled;
  const counted = (number, name) => number + ' ' + name + (number === 1 ? '' : 's');

  // The regions from which words of a region come: those from one up to, and without, another.
  const sourcesOf = (region, from, end) => {
    let begin = 0;
    return (moves.sources.get(region) || []).filter(([, next]) => {
      const isOne = begin < end && from < next;
      begin = next;
      return isOne;
    }).map(([source]) => source);
  };
  const copies = (region, from, number) => {
    const these = counted(number, 'word') + ' of region ' + region;
    const sources = sourcesOf(region, from, from + number);
    if (region < moves.prefix) return 'leaves ' + these + ' where they are, dead ones as fillers';
    return 'copies ' + these + ' from ' + (sources.length > 1 ? 'regions ' + sources.join(' and ')
      : 'region ' + sources[0] + (sources[0] === region ? ' itself' : ''));
  };
  const begun = (text) => text.charAt(0).toUpperCase() + text.slice(1) + '.';

  const whyNot = (state, region) => {
    const reasons = [];
    const readers = state.readersOf(region);
    if (!isToFill(region)) reasons.push("it isn't to be filled");
    if (state.stage[region] !== START) reasons.push('worker ' + state.owner[region] + ' has claimed it before');
    if (readers.length > 0) reasons.push(list(readers));
    return 'No: ' + reasons.join(', and ') + '.';
  };

  const seen = (reply) => {
    if (reply === 'claimed') return 'it is claimed, and not filled yet';
    if (reply === 'filled') return 'all its words are written';
    const left = reply.charAt(reply.length - 1);
    return (reply.startsWith('open') ? "it is to be filled and unclaimed" : "it isn't to be filled")
      + ', and ' + (left === '0' ? 'nobody has' : left === '1' ? 'one region has' : left + ' regions have') + ' still to read it';
  };

  const after = (source) => {
    const taken = granted.get(source);
    if (!isToFill(source)) return "It isn't to be filled, so nobody claims it.";
    return taken ? 'Worker ' + taken.worker + ' claims it in line ' + taken.line + '.' : 'Nobody claims it in this schedule.';
  };

  // For each event what happened, and why it was allowed or why it had this reply, from the state before it.
  const words = {
    claim: (who, state, { region, reply }) => (reply === 'yes'
      ? [who + ' claims region ' + region + ': granted.',
        'Yes: it is to be filled, nobody had claimed it, and nobody has still to read it.']
      : [who + ' claims region ' + region + ': not granted.', whyNot(state, region)]),
    look: (who, state, { region, reply }) => [who + ' looks at region ' + region + ': ' + seen(reply) + '.',
      'A look is always allowed, and changes nothing.'],
    drain: (who, state, { region, other, reply }) => {
      const left = state.readersOf(other).filter((reader) => reader !== region);
      return [who + ' has copied all that region ' + region + ' takes from region ' + other + '. '
        + (reply === 'last' ? 'It was the last: region ' + other + ' is free. ' + after(other) : begun(list(left))),
      'Allowed: ' + who.toLowerCase() + ' claimed region ' + region + ', had not completed it, and this pair was pending.'];
    },
    complete: (who, state, { region }) => [who + ' completes region ' + region + '.',
      'Allowed: it claimed the region, has written all its words, and has drained all that it takes from others.'],
    settle: (who, state, { region, reply }) => [who + ' settles region ' + region + ': '
      + (reply === 'all' ? 'all regions to be filled are settled.' : (state.unsettled - 1) + ' are still to be settled.'),
    'Allowed: it claimed the region and has completed it.'],
    poll: (who, state, { reply }) => [who + ' asks whether all is settled: '
      + (reply === 'all' ? 'yes.' : 'no, ' + state.unsettled + ' regions are not.'), 'A poll is always allowed.'],
    copy: (who, state, { region, other }) => [who + ' ' + copies(region, state.written[region], other) + '; written now: '
      + (state.written[region] + other) + '.',
    'Allowed: it claimed the region, and at least so many words were unwritten.'],
  };

  const explain = (line) => {
    if (line < FIRST) return ['Nothing has happened yet.', 'The heap has ' + moves.regions + ' regions, of which ' + moves.filled + ' are to be filled.'];
    const call = calls[line - FIRST];
    return words[call.verb]('Worker ' + call.worker, stateAfter(line - 1), call);
  };

  const grid = element('regions');
  const hasSmall = moves.regions > 600;
  const sizeCells = () => { grid.className = !hasSmall ? 'large' : element('numbers').checked ? 'middle' : 'small'; };
  element('numbered').hidden = !hasSmall;
  sizeCells();
  grid.innerHTML = Array.from({ length: moves.regions }, (_, r) => '<i>' + r + '</i>').join('');
  const cells = Array.from(grid.children);
  const looks = new Int16Array(moves.regions).fill(-1);
  const lanes = element('workers');
  lanes.innerHTML = Array.from({ length: workers }, (_, w) => '<li><b>worker ' + w + '</b> <span></span></li>').join('');
  const doing = Array.from(lanes.querySelectorAll('span'));
  element('names').innerHTML = Array.from({ length: workers }, (_, w) => '<li>worker ' + w + '</li>').join('');
  const names = Array.from(element('names').children);

  // What each worker fills in the whole schedule.
  const filled = Array.from({ length: workers }, () => ({ regions: 0, words: 0 }));
  calls.forEach(({ worker, verb, other }) => {
    if (verb === 'complete') filled[worker].regions += 1;
    if (verb === 'copy') filled[worker].words += other;
  });
  const parts = filled.map((its) => counted(its.regions, 'region') + ', ' + counted(its.words, 'word'));
  element('filled').innerHTML = parts.map((its, w) => '<li><span class="unseen">worker ' + w + ' fills </span>' + its + '</li>').join('');
  element('worker').innerHTML = Array.from({ length: workers }, (_, w) => '<option value="' + w + '">' + w + '</option>').join('');

  const showRegions = (state) => {
    for (let r = 0; r < moves.regions; r += 1) {
      const look = state.stage[r] * 4 + state.pending[r];
      if (looks[r] !== look) {
        looks[r] = look;
        cells[r].className = isToFill(r) ? STAGES[state.stage[r]] : 'outside';
        cells[r].dataset.pending = state.pending[r] || '';
      }
    }
  };

  // The region of a line has a frame, and is brought into sight before it is painted.
  let framed = null;
  const bring = () => {
    if (!framed) return;
    const top = framed.offsetTop - grid.offsetTop;
    const isInSight = top >= grid.scrollTop && top + framed.offsetHeight <= grid.scrollTop + grid.clientHeight;
    if (!isInSight) grid.scrollTop = top - grid.clientHeight / 2;
  };
  const frame = (line) => {
    if (framed) delete framed.dataset.now;
    framed = line < FIRST || calls[line - FIRST].verb === 'poll' ? null : cells[calls[line - FIRST].region];
    if (!framed) return;
    framed.dataset.now = '';
    window.requestAnimationFrame(bring);
  };

  const about = (region, state) => {
    const readers = state.readersOf(region);
    const owner = state.owner[region];
    return 'Region ' + region + ': ' + (isToFill(region) ? NAMES[state.stage[region]] : 'not to be filled')
      + (owner < 0 ? '' : ' by worker ' + owner) + ', ' + (readers.length ? list(readers) : 'nobody has still to read it') + '.';
  };

  const showWorkers = (state, line) => {
    const held = Array.from({ length: workers }, () => []);
    state.owner.forEach((owner, r) => {
      if (owner >= 0 && state.stage[r] !== SETTLED) held[owner].push(r);
    });
    const acts = line < FIRST ? -1 : calls[line - FIRST].worker;
    held.forEach((regions, w) => {
      doing[w].textContent = regions.length ? regions.map((r) => DOES[state.stage[r]] + ' region ' + r).join(', ') : 'has no region in hand';
      doing[w].parentNode.className = w === acts ? 'acts' : '';
      names[w].className = w === acts ? 'acts' : '';
    });
  };

  const showNear = (line) => {
    const from = Math.max(1, Math.min(line - 4, last - 8));
    const rows = [];
    for (let k = from; k <= Math.min(last, from + 8); k += 1) {
      const row = k === 1 ? 'schedule 1 ' + workers : calls[k - FIRST].row;
      rows.push('<li value="' + k + '"' + (k === line ? ' aria-current="true"' : '') + '>' + row + '</li>');
    }
    element('near').innerHTML = rows.join('');
  };

  let current = 1;
  let now = stateAfter(1);
  let looked = 0;
  let timer = null;

  const show = (wanted) => {
    current = Math.max(1, Math.min(last, Math.floor(wanted) || 1));
    now = stateAfter(current);
    if (current === last) pause();
    const [what, why] = explain(current);
    showRegions(now);
    frame(current);
    showWorkers(now, current);
    showNear(current);
    element('what').textContent = what;
    element('why').textContent = why;
    element('line').textContent = 'line ' + current + ' of ' + last;
    element('slider').value = current;
    element('slider').setAttribute('aria-valuetext', 'line ' + current + ' of ' + last);
    element('wanted').value = current;
    element('about').textContent = about(looked, now);
    if (heapWords) heapWords.show(now, current, calls[current - FIRST], isToFill);
    element('cursor').style.left = (last > 1 ? ((current - 1) / (last - 1)) * 100 : 0) + '%';
  };

  const pause = () => {
    if (timer !== null) clearInterval(timer);
    timer = null;
    element('play').textContent = 'Play';
    element('said').setAttribute('aria-live', 'polite');
  };

  // The line that plays is computed from the clock, so that slow drawing skips lines and doesn't slow the play down.
  let origin = { line: 1, time: 0, speed: 1 };
  const begin = () => { origin = { line: current, time: performance.now(), speed: Number(element('speed').value) }; };
  const tick = () => {
    const line = origin.line + Math.floor(((performance.now() - origin.time) * origin.speed) / 1000);
    if (line !== current) show(line);
  };
  const play = () => {
    if (current === last) show(1);
    begin();
    element('play').textContent = 'Pause';
    element('said').setAttribute('aria-live', 'off'); // more lines than anybody can be told
    timer = setInterval(tick, Math.max(16, Math.min(100, 500 / origin.speed)));
  };

  const toggle = () => (timer === null ? play() : pause());
  const jump = (line) => {
    pause();
    show(line);
  };

  // The next line of which something holds, or with step -1 the one before; the current one where there is none.
  const follow = (holds, step) => {
    for (let k = current + step; k >= FIRST && k <= last; k += step) if (holds(calls[k - FIRST])) return jump(k);
    return jump(current);
  };
  const isOfRegion = (call) => call.verb !== 'poll' && (call.region === looked || (call.verb === 'drain' && call.other === looked));
  const isOfWorker = (call) => call.worker === Number(element('worker').value);

  // A bar for each granted region: its worker, the lines of its claim, completion and settling (or the last line).
  const bars = [];
  {
    const open = new Map();
    calls.forEach(({ worker, verb, region, reply }, i) => {
      const line = i + FIRST;
      if (verb === 'claim' && reply === 'yes') {
        open.set(region, { region, worker, claimed: line, completed: last + 1, settled: last });
        bars.push(open.get(region));
      } else if (verb === 'complete') open.get(region).completed = line;
      else if (verb === 'settle') open.get(region).settled = line;
    });
  }
  const hasMany = bars.length > MANY;
  element('bars').hidden = hasMany;
  element('shares').hidden = !hasMany;

  const HIGH = 20;
  const colour = (name) => window.getComputedStyle(document.documentElement).getPropertyValue('--' + name).trim();

  // For each column of a lane, the number of its lines in which the worker has a region in hand, added up over the regions.
  const heldIn = (worker, columns) => {
    const held = new Float64Array(columns);
    const wide = columns / Math.max(1, last - 1);
    bars.filter((bar) => bar.worker === worker).forEach(({ claimed, settled }) => {
      const [from, to] = [(claimed - FIRST) * wide, (settled - FIRST + 1) * wide];
      for (let x = Math.floor(from); x < Math.min(columns, to); x += 1) held[x] += (Math.min(to, x + 1) - Math.max(from, x));
    });
    return held;
  };
  const shareOf = (held) => (held <= 0 ? 0 : held >= 0.999 ? 4 : held < 1 / 3 ? 1 : held < 2 / 3 ? 2 : 3);

  const drawShares = (pen, width) => {
    const shades = ['lane', 'share1', 'share2', 'share3', 'share4'].map(colour);
    const wide = 3;
    for (let w = 0; w < workers; w += 1) {
      heldIn(w, Math.ceil(width / wide)).forEach((held, x) => {
        pen.fillStyle = shades[shareOf(held)];
        pen.fillRect(x * wide, w * HIGH + 3, wide, HIGH - 6);
      });
    }
  };

  const drawBars = (pen, at) => {
    const fills = [colour('even'), colour('odd')];
    const [waiting, text, edge, mark] = ['waiting', 'on-bar', 'edge', 'mark'].map(colour);
    const part = (fill, { worker }, from, to) => {
      if (to < from) return;
      const wide = Math.max(1, at(to + 1) - at(from));
      pen.fillStyle = fill;
      pen.fillRect(at(from), worker * HIGH + 3, wide, HIGH - 6);
      pen.strokeStyle = edge;
      if (wide > 4) pen.strokeRect(at(from) + 0.5, worker * HIGH + 3.5, wide - 1, HIGH - 7);
    };
    bars.forEach((bar) => {
      const filled = Math.min(bar.completed, bar.settled);
      part(fills[bar.region % 2], bar, bar.claimed, filled);
      part(waiting, bar, filled + 1, bar.settled);
      pen.fillStyle = text;
      if (at(filled + 1) - at(bar.claimed) > 24) pen.fillText(bar.region, at(bar.claimed) + 4, bar.worker * HIGH + 14);
    });
    pen.fillStyle = mark;
    calls.forEach(({ worker, verb, reply }, i) => {
      if (verb === 'drain' && reply === 'last') pen.fillRect(at(i + FIRST), worker * HIGH + HIGH - 4, 3, 4);
    });
  };

  const draw = () => {
    const canvas = element('lanes');
    const pen = canvas.getContext && canvas.getContext('2d');
    if (!pen) return;
    const width = canvas.clientWidth || 960;
    const dense = window.devicePixelRatio || 1;
    canvas.width = width * dense;
    canvas.height = workers * HIGH * dense;
    canvas.style.height = workers * HIGH + 'px';
    pen.scale(dense, dense);
    pen.font = '11px sans-serif';
    pen.fillStyle = colour('lane');
    for (let w = 0; w < workers; w += 1) pen.fillRect(0, w * HIGH + 3, width, HIGH - 6);
    if (hasMany) drawShares(pen, width);
    else drawBars(pen, (line) => ((line - FIRST) / Math.max(1, last - 1)) * width);
  };

  // The line and the lane at a point of the chart, and what the worker has in hand there.
  const lineAt = (event) => FIRST + Math.min(last - FIRST, Math.floor((event.offsetX / (element('lanes').clientWidth || 1)) * (last - 1)));
  const tipOf = (event) => {
    const [line, worker] = [lineAt(event), Math.min(workers - 1, Math.floor(event.offsetY / HIGH))];
    const held = bars.filter((bar) => bar.worker === worker && bar.claimed <= line && line <= bar.settled);
    return 'line ' + line + ', worker ' + worker + ': ' + (held.length
      ? held.map((bar) => 'region ' + bar.region + (line > bar.completed ? ' (completed)' : '')).join(', ') : 'no region in hand');
  };

  const keys = {
    ' ': toggle,
    ArrowRight: () => jump(current + 1),
    ArrowLeft: () => jump(current - 1),
    PageDown: () => jump(current + 100),
    PageUp: () => jump(current - 100),
    Home: () => jump(1),
    End: () => jump(last),
    f: () => follow((call) => call.verb === 'complete', 1),
    F: () => follow((call) => call.verb === 'complete', -1),
    r: () => follow(isOfRegion, 1),
    R: () => follow(isOfRegion, -1),
    w: () => follow(isOfWorker, 1),
    W: () => follow(isOfWorker, -1),
  };
  document.addEventListener('keydown', (event) => {
    const { id, tagName } = event.target || {};
    const isTheirs = (tagName === 'INPUT' && id !== 'slider') || tagName === 'SELECT' || (tagName === 'BUTTON' && event.key === ' ');
    if (!keys[event.key] || isTheirs || event.ctrlKey || event.altKey || event.metaKey) return;
    event.preventDefault();
    keys[event.key]();
  });
  element('play').addEventListener('click', toggle);
  element('back').addEventListener('click', keys.ArrowLeft);
  element('step').addEventListener('click', keys.ArrowRight);
  element('begin').addEventListener('click', keys.Home);
  element('end').addEventListener('click', keys.End);
  element('slider').addEventListener('input', () => jump(Number(element('slider').value)));
  element('near').addEventListener('click', (event) => event.target.value && jump(event.target.value));
  const lookAt = (region) => {
    if (!(region >= 0 && region < moves.regions)) return;
    looked = region;
    element('about').textContent = about(looked, now);
  };
  element('region').addEventListener('input', () => lookAt(Math.floor(Number(element('region').value))));
  grid.addEventListener('click', (event) => {
    const region = cells.indexOf(event.target);
    if (region < 0) return;
    element('region').value = region;
    lookAt(region);
  });
  grid.addEventListener('mouseover', (event) => {
    const region = cells.indexOf(event.target);
    if (region >= 0) event.target.title = about(region, now);
  });
  element('lanes').addEventListener('click', (event) => {
    jump(lineAt(event));
    element('worker').value = Math.min(workers - 1, Math.floor(event.offsetY / HIGH));
  });
  element('lanes').addEventListener('mousemove', (event) => { element('lanes').title = tipOf(event); });
  element('wanted').addEventListener('change', () => jump(Number(element('wanted').value)));
  element('region-on').addEventListener('click', keys.r);
  element('region-back').addEventListener('click', keys.R);
  element('worker-on').addEventListener('click', keys.w);
  element('worker-back').addEventListener('click', keys.W);
  element('numbers').addEventListener('change', sizeCells);
  element('speed').addEventListener('change', () => timer !== null && begin());
  window.addEventListener('resize', draw);
  if (window.matchMedia) window.matchMedia('(prefers-color-scheme: dark)').addEventListener('change', draw);

  element('slider').max = last;
  element('wanted').max = last;
  element('last').textContent = 'line ' + last;
  element('region').max = moves.regions - 1;
  if (heapWords) heapWords.begin(moves.regions);
  draw();
  const wanted = /^#line=([0-9]+)$/.exec(window.location.hash);
  show(wanted ? Number(wanted[1]) : 1);

  // What a line shows, for programs that drive the page.
  window.timeline = {
    last,
    show: jump,
    line: () => current,
    isPlaying: () => timer !== null,
    workers: () => doing.map((it) => it.textContent),
    filled: parts,
    explain,
    stateAt: (line) => {
      const state = stateAfter(line);
      return {
        stages: Array.from(state.stage, (stage, r) => (isToFill(r) ? STAGES[stage] : 'outside')),
        owners: Array.from(state.owner),
        pending: Array.from(state.pending),
        unsettled: state.unsettled,
      };
    },
  };
})();
"##;
