//! What each page begins with, whatever it shows: its style.

/// Up to what is beside the lanes.
pub const STYLE: &str = r##"<!DOCTYPE html>
<html lang="en">
<head>
<meta charset="utf-8">
<meta name="viewport" content="width=device-width">
<title>Step by step</title>
<style>
:root { color-scheme: light dark; --back: #fff; --fore: #111; --soft: #595959; --lane: #f3f3f3; --line: #bbb; --mark: #fff3b0; --edge: #b34700; }
:root { --post: #bfe0f5; --send: #fbe0b0; --handle: #b9e3d4; --stop: #ecd0e0; --ask: #fff; --off: #0002; }
@media (prefers-color-scheme: dark) {
  :root { --back: #151515; --fore: #eee; --soft: #a8a8a8; --lane: #222; --line: #555; --mark: #4a3d00; --edge: #ffa347; }
  :root { --post: #164a68; --send: #5c4210; --handle: #145443; --stop: #5d2d49; --ask: #333; --off: #fff3; }
}
body { margin: 0 auto; max-width: 76rem; padding: 0 1rem; background: var(--back); color: var(--fore); font: 15px/1.4 sans-serif; }
h1 { font-size: 1.1rem; margin: .6rem 0 0; } h2 { font-size: 1rem; margin: .8rem 0 .2rem; }
pre, code, kbd, td, .mono { font-family: monospace; font-size: 13px; }
#top { position: sticky; top: 0; background: var(--back); border-bottom: 1px solid var(--line); padding-bottom: .4rem; z-index: 1; }
#told { font-size: 1.05rem; margin: .3rem 0; min-height: 2.9em; } #told code { font-size: 15px; font-weight: bold; }
button { font: inherit; margin: 0 0 .2rem .2rem; padding: 0 .5rem; min-width: 2rem; } #buttons span { white-space: nowrap; margin-right: 1rem; }
:focus-visible { outline: 3px solid var(--edge); outline-offset: 1px; }
#slider { width: 100%; } #lanes { overflow: auto; max-height: 45vh; border-bottom: 1px solid var(--line); }
#parts { display: grid; grid-template-columns: repeat(auto-fit, minmax(21rem, 1fr)); gap: 0 1.5rem; align-items: start; }
table { border-collapse: collapse; } td, th { text-align: left; padding: 0 .8rem 0 0; vertical-align: top; }
th { font-weight: normal; color: var(--soft); font-size: 13px; }
tr.new td { font-weight: bold; background: var(--mark); } tr.now td { font-weight: bold; background: var(--mark); }
ul { margin: 0; padding-left: 1.1rem; } footer, .soft { color: var(--soft); font-size: 13px; } footer { margin: 1.2rem 0; border-top: 1px solid var(--line); }
svg { display: block; } svg text { fill: var(--fore); font: 10px monospace; } svg .soft, svg text.soft { fill: var(--soft); font-size: 9px; }
svg .lane { fill: var(--lane); } svg .box { stroke: var(--fore); stroke-width: .7; } svg .post { fill: var(--post); }
svg .send, svg .nudge { fill: var(--send); } svg .handle { fill: var(--handle); }
svg .stop { fill: var(--stop); } svg .ask { fill: var(--ask); }
svg .off { fill: var(--off); stroke: var(--fore); stroke-dasharray: 2 3; } svg .mark { fill: none; stroke: var(--edge); stroke-width: 3; }
svg .dot { fill: var(--fore); stroke: var(--fore); stroke-width: 1.5; cursor: pointer; }
svg .load, svg .lost { fill: var(--back); } svg .begin { fill: var(--soft); stroke: none; }
svg .run { fill: var(--edge); } svg .error { fill: none; stroke: var(--edge); stroke-width: 3; }
svg .call, svg .interrupt { fill: none; stroke: var(--edge); stroke-width: 1.5; } svg .interrupt { stroke-dasharray: 5 3; }
</style>
</head>
<body>
<div id="top">
<h1 id="title">Step by step</h1>
<p id="told" role="status"></p>
<input id="slider" type="range" min="0" value="0" aria-label="event">
<div id="buttons"></div>
</div>
<div id="lanes" tabindex="0" role="region" aria-label="A lane for each CPU"></div>
"##;
