//! The constant parts of a page, except its script.

/// The part before the names of the files: the styles. Colours are custom properties, with other values in dark mode; `page_script.rt`
/// reads them for the lanes.
pub(crate) const HEAD: &str = r##"<!DOCTYPE html>
<html lang="en">
<head>
<meta charset="utf-8">
<meta name="viewport" content="width=device-width">
<meta name="color-scheme" content="light dark">
<title>A schedule of a collection, line by line</title>
<style>
:root { color-scheme: light dark; --text: #111; --page: #fff; --quiet: #555; --edge: #767676; --lane: #eee; --frame: #c00000;
  --outside: #ddd; --start: #fff; --claimed: #b35c00; --stripe: #f0b050; --filled: #6ba3e0; --settled: #1f4e8c; --on-settled: #fff;
  --on-filled: #111; --even: #5a94d8; --odd: #f3c77f; --waiting: #fff; --on-bar: #111; --mark: #111;
  --word0: #cfe3ff; --word1: #ffe0b8; --word2: #cdeccf; --word3: #f2d3ee; --word4: #e6e4b4; --word5: #d9d9d9;
  --share1: #b9d3f0; --share2: #7fadde; --share3: #3f78bd; --share4: #163c70 }
@media (prefers-color-scheme: dark) { :root { --text: #eee; --page: #16181c; --quiet: #b4b4b4; --edge: #8a8a8a; --lane: #2a2d33; --frame: #ff7a6b;
  --outside: #3a3d42; --start: #16181c; --claimed: #f0a040; --stripe: #8a5a10; --filled: #2f62a5; --settled: #b9d6ff; --on-settled: #111;
  --on-filled: #fff; --even: #1d3f6e; --odd: #8c5a16; --waiting: #16181c; --on-bar: #fff; --mark: #fff;
  --word0: #1d3f6e; --word1: #6b4312; --word2: #1d5130; --word3: #5c2a57; --word4: #54511a; --word5: #45484e;
  --share1: #2c4d78; --share2: #3c72b4; --share3: #79a9e4; --share4: #cfe3ff } }
body { font: 15px/1.4 sans-serif; margin: 16px; max-width: 1100px; color: var(--text); background: var(--page) }
h1 { font-size: 20px; margin: 0 0 4px }
h2 { font-size: 15px; margin: 14px 0 4px }
#whose { margin: 0 0 8px; color: var(--quiet); overflow-wrap: anywhere }
button, select, input { font: inherit }
button { min-width: 44px; min-height: 28px }
input[type=number] { width: 7em }
:focus-visible { outline: 3px solid #2680ff; outline-offset: 1px }
.controls { display: flex; gap: 6px 10px; align-items: center; flex-wrap: wrap; margin: 4px 0 }
#slider { width: 100% }
#line { min-width: 150px; font-weight: bold }
#what { font-size: 18px; margin: 8px 0 0; min-height: 1.4em }
#why { margin: 0; min-height: 1.4em }
#regions { display: flex; flex-wrap: wrap; gap: 2px; max-height: 460px; overflow: auto; padding: 3px }
#regions i, .legend i { font-style: normal; border: 1px solid var(--edge); box-sizing: border-box; text-align: center; position: relative; contain: strict }
.large i { width: 46px; height: 34px; line-height: 20px; font-size: 12px; padding-top: 1px }
.middle i { width: 44px; height: 16px; line-height: 14px; font-size: 10px; padding-right: 7px }
.small i { width: 13px; height: 13px; line-height: 11px; font-size: 0 }
.large i::after, .middle i::after { content: attr(data-pending); position: absolute; right: 2px; bottom: -2px; font-weight: bold }
.middle i::after { bottom: 0 }
.large i:not([data-pending=""])::before { content: "\25CF"; position: absolute; left: 3px; bottom: -2px; font-size: 9px }
.small i::after { content: attr(data-pending); font-size: 10px }
.legend { color: var(--quiet); margin: 4px 0 }
.legend span { white-space: nowrap }
.legend i { display: inline-block; width: 18px; height: 14px; vertical-align: -2px; margin: 0 4px 0 10px }
#regions i[data-now] { outline: 3px solid var(--frame); z-index: 1 }
i.outside { background: var(--outside); border-style: dotted }
i.start { background: var(--start) }
i.claimed { background: var(--start); box-shadow: inset 0 0 0 3px var(--claimed) }
i.filling { background: repeating-linear-gradient(45deg, var(--start) 0 3px, var(--stripe) 3px 6px) }
i.filled { background: var(--filled); color: var(--on-filled) }
i.settled { background: var(--settled); color: var(--on-settled) }
i.share0 { background: var(--lane) }
i.share1 { background: var(--share1) }
i.share2 { background: var(--share2) }
i.share3 { background: var(--share3) }
i.share4 { background: var(--share4) }
.words { overflow-x: auto; margin: 4px 0 }
.words table { border-collapse: collapse; font: 12px/1.25 monospace }
.words caption { text-align: left; color: var(--quiet); padding: 2px 0 }
.words th { text-align: left; font-weight: normal; width: 124px; min-width: 124px; padding: 2px 4px 2px 0; vertical-align: top }
.words th small { display: block; color: var(--quiet); min-height: 1.25em; font-size: 11px }
.words td { border: 1px solid var(--edge); min-width: 38px; padding: 1px 3px; text-align: center; position: relative }
.words b { display: block }
.words td.now { outline: 3px solid var(--frame); outline-offset: -2px }
.words .dead { color: var(--quiet) }
.words .o0 { background: var(--word0) }
.words .o1 { background: var(--word1) }
.words .o2 { background: var(--word2) }
.words .o3 { background: var(--word3) }
.words .o4 { background: var(--word4) }
.words .o5 { background: var(--word5) }
#band { display: grid; grid-template-columns: auto minmax(0, 1fr) auto }
#names, #filled { margin: 1px 6px 0 0; padding: 0; text-align: right; font-size: 12px; line-height: 20px; white-space: nowrap }
#filled { margin: 1px 0 0 6px; text-align: left }
#names li, #filled li { list-style: none }
.unseen { position: absolute; width: 1px; height: 1px; overflow: hidden; clip-path: inset(50%) }
#names li.acts { font-weight: bold }
#chart { position: relative; overflow: hidden; border: 1px solid var(--edge) }
#lanes { display: block; width: 100% }
#cursor { position: absolute; top: 0; bottom: 0; width: 2px; margin-left: -1px; background: var(--frame) }
#axis { grid-column: 2; display: flex; justify-content: space-between; gap: 8px; font-size: 12px; color: var(--quiet) }
#near, #workers { margin: 0; font-family: monospace }
#near { padding-left: 70px }
#near li { cursor: pointer }
#near li[aria-current] { background: var(--text); color: var(--page) }
#near li[aria-current]::marker { color: var(--text); font-weight: bold }
#workers { padding-left: 16px; max-height: 190px; overflow: auto }
#workers li.acts { font-weight: bold }
#both { display: flex; gap: 24px; flex-wrap: wrap }
#both > div { flex: 1 1 320px; min-width: 0 }
@media (max-width: 480px) { body { margin: 8px } #axis { grid-column: 1 / -1 } #filled { font-size: 10px } #what { font-size: 16px } .words th { width: 62px; min-width: 62px } .words td { min-width: 28px; padding: 1px 0 } #near { padding-left: 56px } }
</style>
</head>
<body>
<h1>A schedule of a collection, line by line</h1>
<p id="whose">"##;

/// The part between the names of the files and the words of the heap.
pub(crate) const BEFORE_HEAP: &str = r##"</p>
<div class="controls" role="group" aria-label="the line that is shown">
<button id="begin" type="button" aria-label="Start: go to the first line" aria-keyshortcuts="Home">Start</button>
<button id="back" type="button" aria-label="Back by a line" aria-keyshortcuts="ArrowLeft">Back</button>
<button id="play" type="button" aria-keyshortcuts="Space">Play</button>
<button id="step" type="button" aria-label="Step on by a line" aria-keyshortcuts="ArrowRight">Step</button>
<button id="end" type="button" aria-label="End: go to the last line" aria-keyshortcuts="End">End</button>
<label>at <select id="speed" aria-label="lines a second">
<option value="1">1 line</option>
<option value="5" selected>5 lines</option>
<option value="25">25 lines</option>
<option value="250">250 lines</option>
<option value="2500">2500 lines</option>
</select> a second</label>
<label>Go to line <input id="wanted" type="number" min="1" value="1" step="1"></label>
<span id="line"></span>
</div>
<input id="slider" type="range" min="1" value="1" step="1" aria-label="line of the schedule">
<p class="legend">Keys: space plays and pauses; left and right go back and on by a line, page up and page down by a hundred; Home and End go to the first and the last line; f goes to the next line that ends a fill; r and w go to the next line of the region and of the worker; F, R and W to the one before.</p>
<div id="said" aria-live="polite" aria-atomic="true"><p id="what"></p><p id="why"></p></div>
<h2>Workers: what they have in hand, and how much each fills</h2>
<div id="band"><ul id="names" aria-hidden="true"></ul><div id="chart"><canvas id="lanes" role="img" aria-label="a lane for each worker, along the lines of the schedule"></canvas><div id="cursor"></div></div><ul id="filled" aria-label="what each worker fills"></ul>
<div id="axis"><span>line 2</span><span>lines of the schedule, not time</span><span id="last"></span></div></div>
<p class="legend" id="bars">A coloured bar is a region from its claim to its completion, a hollow one from there to its settling. A mark below a bar: a drain freed a region.</p>
<p class="legend" id="shares" hidden>Too many regions for a bar each: colour shows in how many of its lines a worker has a region in hand: <span><i class="share0"></i>none</span> <span><i class="share1"></i>less than a third</span> <span><i class="share2"></i>less than two thirds</span> <span><i class="share3"></i>most</span> <span><i class="share4"></i>all</span></p>
<h2>Regions of the heap</h2>
<div id="regions" role="img" aria-label="a cell for each region of the heap; Region, below, tells of one"></div>
<p class="legend"><span><i class="start"></i>as at the start</span> <span><i class="claimed"></i>claimed</span> <span><i class="filling"></i>being filled</span> <span><i class="filled"></i>filled</span> <span><i class="settled"></i>settled</span> <span><i class="outside"></i>not to be filled.</span> The small number in a cell is the number of regions that have still to read it. <label id="numbered" hidden><input id="numbers" type="checkbox"> Numbers in all cells</label></p>
<section id="words" aria-label="the words of the heap" hidden>
<h2>Words of the heap, with their objects</h2>
<div id="words-before" class="words"></div>
<div id="words-now" class="words"></div>
<p class="legend">A letter names the object that a word belongs to. head is its header, an arrow a reference and where it leads, &middot; a dead word. Framed words were copied by this line. References of an object across the end of a region are redirected after the last line.</p>
</section>
<div class="controls" role="group" aria-label="lines of a region">
<label>Region <input id="region" type="number" min="0" value="0" step="1"></label>
<button id="region-back" type="button" aria-label="Line before, of this region" aria-keyshortcuts="Shift+R">Line before</button>
<button id="region-on" type="button" aria-label="Next line, of this region" aria-keyshortcuts="R">Next line</button>
<span id="about" aria-live="polite"></span>
</div>
<div class="controls" role="group" aria-label="lines of a worker">
<label>Worker <select id="worker"></select></label>
<button id="worker-back" type="button" aria-label="Line before, of this worker" aria-keyshortcuts="Shift+W">Line before</button>
<button id="worker-on" type="button" aria-label="Next line, of this worker" aria-keyshortcuts="W">Next line</button>
</div>
<div id="both">
<div><h2>Lines around this one</h2><ol id="near"></ol></div>
<div><h2>Workers</h2><ul id="workers"></ul></div>
</div>
<script type="text/plain" id="heap">
"##;

/// The part between the words of the heap and the moves.
pub(crate) const BEFORE_MOVES: &str = r##"</script>
<script type="text/plain" id="moves">
"##;

/// The part between the moves and the schedule.
pub(crate) const BEFORE_SCHEDULE: &str = r##"</script>
<script type="text/plain" id="schedule">
"##;

/// The part between the schedule and the script.
pub(crate) const AFTER_SCHEDULE: &str = r##"</script>
<script>
"##;

/// The part after the script.
pub(crate) const TAIL: &str = r##"</script>
</body>
</html>
"##;
