//! The style sheet of a page.

/// The styles of colours and text.
pub const STYLE_OF_TEXT: &str =
    ":root{color-scheme:light dark;--bg:#fff;--fg:#1a1f26;--soft:#57606a;--line:#d5dbe1;--panel:#f7f9fb;--activity:#1f6feb;--timer:#9a6700;--child:#8250df;--signal:#1a7f37;--request:#0a7ea4;--marker:#57606a;--bad:#cf222e;--badbg:#ffebe9;--ok:#116329;--okbg:#dafbe1}
@media (prefers-color-scheme:dark){:root{--bg:#0e1116;--fg:#e6edf3;--soft:#9aa5b1;--line:#30363d;--panel:#161b22;--activity:#58a6ff;--timer:#d29922;--child:#bc8cff;--signal:#3fb950;--request:#39c5cf;--marker:#9aa5b1;--bad:#ff7b72;--badbg:#3d1418;--ok:#56d364;--okbg:#12301b}}
*{box-sizing:border-box}
body{margin:0 auto;max-width:72rem;padding:1.5rem 1rem 4rem;background:var(--bg);color:var(--fg);font:15px/1.5 system-ui,-apple-system,'Segoe UI',sans-serif}
h1{font-size:1.4rem;line-height:1.3;margin:0;overflow-wrap:anywhere;unicode-bidi:isolate}
h2{font-size:1.1rem;margin:2.2rem 0 .6rem}
code,pre{font:13px/1.5 ui-monospace,SFMono-Regular,Menlo,Consolas,monospace}
pre{margin:0;white-space:pre-wrap;overflow-wrap:anywhere}
.soft{color:var(--soft)}
a{color:inherit}
:focus-visible{outline:2px solid var(--activity);outline-offset:2px}
";

/// The styles of the parts other than the picture.
pub const STYLE_OF_PARTS: &str =
    ".verdict{display:inline-block;margin:.6rem 0 0;padding:.2rem .8rem;border-radius:1rem;font-weight:600;overflow-wrap:anywhere}
.ok{color:var(--ok);background:var(--okbg)}
.bad{color:var(--bad);background:var(--badbg)}
.unjudged{color:var(--soft);background:var(--panel);border:1px solid var(--line)}
.facts{display:grid;grid-template-columns:repeat(auto-fill,minmax(11rem,1fr));gap:.5rem 1.5rem;margin:1.2rem 0 0}
.facts div{border-top:1px solid var(--line);padding-top:.3rem}
dt{color:var(--soft);font-size:13px}
dd{margin:0;overflow-wrap:anywhere;unicode-bidi:isolate}
.sides{display:grid;grid-template-columns:1fr 1fr;gap:1rem}
.side{border:1px solid var(--line);border-left:4px solid var(--bad);border-radius:6px;padding:.6rem .9rem;background:var(--panel)}
.side h3{margin:0 0 .3rem;font-size:13px;color:var(--soft);font-weight:600}
.waits{margin:1.5rem 0 0;padding:.6rem .9rem;border:1px solid var(--line);border-left:4px solid var(--activity);border-radius:6px;background:var(--panel)}
.waits h2{margin:0 0 .3rem}
ul{margin:0;padding-left:1.2rem;overflow-wrap:anywhere;unicode-bidi:isolate}
.scroll{overflow-x:auto}
table{border-collapse:collapse;width:100%;font-size:13.5px}
th,td{text-align:left;padding:.3rem .9rem .3rem 0;border-bottom:1px solid var(--line);vertical-align:top;unicode-bidi:isolate}
thead th{color:var(--soft);font-weight:600;font-size:13px}
tbody th{font-weight:400;overflow-wrap:anywhere;min-width:9rem}
tr.hit th{color:var(--bad);font-weight:600}
td{overflow-wrap:break-word}
.words{min-width:8.5rem;max-width:20rem;overflow-wrap:anywhere}
.time{white-space:nowrap;font-variant-numeric:tabular-nums}
.event{display:block;color:var(--soft);font-size:12px}
.failed .words,li.fault,li.fault .event{color:var(--bad)}
.kind{white-space:nowrap}
.kind::before,.key span::before{content:'';display:inline-block;width:.7em;height:.7em;margin-right:.45em;border-radius:3px;background:var(--marker)}
.activity .kind::before,.key .activity::before{background:var(--activity)}
.timer .kind::before,.key .timer::before{background:var(--timer)}
.child .kind::before,.key .child::before{background:var(--child)}
.signal .kind::before,.key .signal::before{background:var(--signal)}
.request .kind::before,.key .request::before{background:var(--request)}
.key{display:flex;flex-wrap:wrap;gap:.2rem 1.2rem;font-size:13px}
.key .none::before{display:none}
details{border-bottom:1px solid var(--line)}
summary{cursor:pointer;padding:.4rem 0;overflow-wrap:anywhere;unicode-bidi:isolate}
summary .time{float:right;color:var(--soft);margin-left:1rem;font-size:13px}
details.hit>summary{color:var(--bad);font-weight:600}
details ol{clear:both;list-style:none;margin:0;padding:.1rem 0 .8rem}
details li{display:grid;grid-template-columns:5rem 5.5rem 1fr;gap:.6rem;padding:.1rem 0}
details li>*{min-width:0}
li .side-word,li .event{color:var(--soft);font-size:13px;font-variant-numeric:tabular-nums;display:inline}
li code{white-space:pre-wrap;overflow-wrap:anywhere;unicode-bidi:isolate}
li.gives code{font-weight:600}
.trace{grid-column:3;border:0}
.trace summary{padding:0;color:var(--soft);font-size:13px}
li.fault .side-word{color:var(--bad);font-weight:600}
li:target{background:var(--panel);outline:2px solid var(--activity)}
@media (max-width:40rem){.sides{grid-template-columns:1fr}details li{grid-template-columns:4.5rem 1fr;gap:0 .6rem;padding:.1rem 0 .4rem}li code,.trace{grid-column:1/-1}summary .time{float:none;display:block;margin:0}}
";

/// The styles of the picture, and of the page in print.
pub const STYLE_OF_PICTURE: &str =
    ".picture{border:1px solid var(--line);border-radius:6px;background:var(--panel)}
svg{display:block;min-width:54rem;width:100%;height:auto;font:12px system-ui,-apple-system,'Segoe UI',sans-serif;--c:var(--marker)}
svg text{fill:var(--fg);unicode-bidi:isolate}
svg .scale{fill:var(--soft);font-size:11px;text-anchor:middle}
svg .grid{stroke:var(--line)}
svg .gap{fill:url(#gap)}
svg .hatch{stroke:var(--soft);stroke-opacity:.28}
svg .lane .room{fill:var(--fg);fill-opacity:0}
svg .lane .room.odd{fill-opacity:.035}
svg .lane:hover .room{fill-opacity:.09}
svg .lane:hover .bar{stroke:var(--fg);stroke-width:2}
svg .activity{--c:var(--activity)}
svg .timer{--c:var(--timer)}
svg .child{--c:var(--child)}
svg .signal{--c:var(--signal)}
svg .request{--c:var(--request)}
svg .bar{fill:var(--c)}
svg .wait{fill:var(--c);fill-opacity:.35}
svg .open .bar{fill-opacity:.3;stroke:var(--c);stroke-dasharray:3 2}
svg .canceled .bar{fill-opacity:.3;stroke:var(--c)}
svg .failed .bar{stroke:var(--bad);stroke-width:2}
svg .cancel{fill:var(--fg)}
svg .said{fill:var(--soft);font-size:11px}
svg .id{fill:var(--soft);font-size:10px}
svg .failed .said{fill:var(--bad)}
svg .hit text{font-weight:600}
svg .tick{fill:var(--soft)}
svg .tick.hit{fill:var(--bad)}
svg .fault{fill:none;stroke:var(--bad);stroke-width:1.5;stroke-dasharray:4 3}
svg .fault-word{fill:var(--bad);font-weight:600;text-anchor:middle}
@media print{body{max-width:none;padding:0;font-size:12px}.scroll{overflow:visible}h2,h3{break-after:avoid}.picture{break-inside:avoid}svg{min-width:0;max-height:24cm}details{break-inside:avoid}details::details-content{content-visibility:visible;display:block}tr{break-inside:avoid}.verdict,svg *,.kind::before,.key span::before{print-color-adjust:exact;-webkit-print-color-adjust:exact}}
";
