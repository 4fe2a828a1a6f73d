//! How the page looks.

/// The page, before its picture.
pub const STYLE_OF_PAGE: &str =
    ":root{color-scheme:light dark;--bg:#fff;--fg:#1a1f26;--soft:#57606a;--line:#d5dbe1;--panel:#f7f9fb;--bad:#cf222e;--badbg:#ffebe9;--ok:#116329;--okbg:#dafbe1;--c0:#1f6feb;--c1:#9a6700;--c2:#8250df;--c3:#1a7f37;--c4:#0a7ea4}
@media (prefers-color-scheme:dark){:root{--bg:#0e1116;--fg:#e6edf3;--soft:#9aa5b1;--line:#30363d;--panel:#161b22;--bad:#ff7b72;--badbg:#3d1418;--ok:#56d364;--okbg:#12301b;--c0:#58a6ff;--c1:#d29922;--c2:#bc8cff;--c3:#3fb950;--c4:#39c5cf}}
*{box-sizing:border-box}
body{margin:0 auto;max-width:72rem;padding:1.5rem 1rem 4rem;background:var(--bg);color:var(--fg);font:15px/1.5 system-ui,-apple-system,'Segoe UI',sans-serif}
h1{font-size:1.4rem;line-height:1.3;margin:0;overflow-wrap:anywhere;unicode-bidi:isolate}
h2{font-size:1.1rem;margin:2rem 0 .6rem}
p,li{overflow-wrap:anywhere;unicode-bidi:isolate}
:focus-visible{outline:2px solid var(--c0);outline-offset:2px}
.verdict{display:inline-block;margin:.6rem 0 0;padding:.2rem .8rem;border-radius:1rem;font-weight:600}
.ok{color:var(--ok);background:var(--okbg)}
.bad{color:var(--bad);background:var(--badbg)}
.soft{color:var(--soft)}
code{font:13px/1.5 ui-monospace,SFMono-Regular,Menlo,Consolas,monospace}
ul{margin:0;padding-left:1.2rem}
.promises,.jobs{margin:0;padding-left:1.6rem}
.promises>li{padding:.2rem 0}
.jobs{margin:.2rem 0 .4rem}
.mark{display:inline-block;min-width:6.8rem;margin-right:.3rem;padding:0 .6rem;border-radius:1rem;font-size:13px;font-weight:600;text-align:center}
.kept>.mark{color:var(--ok);background:var(--okbg)}
.broken>.mark{color:var(--bad);background:var(--badbg)}
.undecided>.mark{color:var(--soft);background:var(--panel);border:1px solid var(--line)}
.scroll{overflow-x:auto}
table{border-collapse:collapse;width:100%;font-size:13.5px}
th,td{text-align:left;padding:.3rem .9rem .3rem 0;border-bottom:1px solid var(--line);vertical-align:top;overflow-wrap:break-word;unicode-bidi:isolate}
td{min-width:6rem}
thead th{color:var(--soft);font-weight:600;font-size:13px}
tbody th{font-weight:400;color:var(--soft)}
.picture{border:1px solid var(--line);border-radius:6px;background:var(--panel)}
svg{display:block;min-width:54rem;width:100%;height:auto;font:13px system-ui,-apple-system,'Segoe UI',sans-serif}
svg text{fill:var(--fg);unicode-bidi:isolate}
";

/// The rows of a picture.
pub const STYLE_OF_ROWS: &str = "svg .soft{fill:var(--soft);font-weight:400}
svg .name{font-weight:600}
svg .stub{font-size:12px}
svg .again{font-weight:400;fill:var(--soft);opacity:.7}
svg .job{font-weight:600}
svg .gives{font-size:12px}
svg .box{fill:var(--bg)}
svg .end{fill:var(--bg);stroke:var(--line)}
svg .edge{stroke:var(--soft);stroke-width:1.5}
svg g:hover .box{fill:var(--panel)}
svg .way{fill:none;stroke:var(--c);stroke-width:1.5}
svg .tip{fill:var(--c)}
svg g:hover .way{stroke-width:3}
svg .taken .box{fill:var(--badbg);stroke:var(--bad);stroke-width:1.5}
svg .taken .way{stroke:var(--bad);stroke-width:3}
svg .taken .tip{fill:var(--bad)}
.legend{margin:0 0 .8rem}
.legend li::marker{color:var(--bad)}
svg .to0{--c:var(--c0)}
svg .to1{--c:var(--c1)}
svg .to2{--c:var(--c2)}
svg .to3{--c:var(--c3)}
svg .to4{--c:var(--c4)}
";

/// The page in print.
pub const STYLE_OF_PRINT: &str =
    "@media print{body{max-width:none;padding:0;font-size:12px}.scroll{overflow:visible}svg{min-width:0}tr,.promises>li{break-inside:avoid}.verdict,.mark,svg *{print-color-adjust:exact;-webkit-print-color-adjust:exact}}
";

/// The marks of a picture on the page of a run, by its colours.
pub const STYLE_OF_MARKS: &str =
    ".marked{font-size:13px;--c0:var(--activity);--c1:var(--timer);--c2:var(--child);--c3:var(--signal);--c4:var(--request)}
.marked .way,.marked .tip{opacity:.3}
.marked .taken .box{fill:var(--okbg);stroke:none}
.marked .taken .way{opacity:1;stroke:var(--c);stroke-width:3.5}
.marked .taken .tip{opacity:1;fill:var(--c)}
.marked .passed{fill:var(--ok)}
.marked .last{fill:var(--ok);font-weight:800;text-decoration:underline}
.marked .end.last{fill:var(--okbg);stroke:var(--ok);stroke-width:3}
";
