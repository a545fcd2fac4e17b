//! The colours, the shapes and the signs of a picture.

/// The style: eight colours of transactions on a light and on a dark background.
pub(crate) const STYLE: &str =
    "svg{--paper:#fff;--ink:#222;--faint:#bbb;--bad:#b00020;font:11px system-ui,sans-serif}
.t0{--c:#0072b2}.t1{--c:#c2410c}.t2{--c:#00795a}.t3{--c:#a8447f}.t4{--c:#9a6700}.t5{--c:#2a7fb8}.t6{--c:#6b4fbb}.t7{--c:#555}
@media (prefers-color-scheme:dark){
svg{--paper:#16181c;--ink:#e8e8e8;--faint:#4a4f57;--bad:#ff6b6b}
.t0{--c:#4da3e0}.t1{--c:#ff8c42}.t2{--c:#3ccfa0}.t3{--c:#e79ac6}.t4{--c:#f0c040}.t5{--c:#8fd0f5}.t6{--c:#b7a3ff}.t7{--c:#bbb}
}
.paper{fill:var(--paper)}
text{fill:var(--ink)}
use{fill:var(--c,var(--ink));stroke:var(--c,var(--ink))}
.sign{fill:none;stroke-width:1.5}
.lanes line{stroke:var(--faint)}
.lanes .out{stroke:var(--bad);stroke-width:3;stroke-dasharray:3 5}
.messages line{stroke:var(--c);stroke-width:1.3}
.messages .hit{stroke:transparent;stroke-width:9}
.messages use{fill:none;stroke-width:1.6}
.again line{stroke-dasharray:5 3}
.n{font-size:8px;fill:var(--c);paint-order:stroke;stroke:var(--paper);stroke-width:2px}
.name{font-size:9px;text-anchor:middle}
.line{font:9.5px ui-monospace,monospace;paint-order:stroke;stroke:var(--paper);stroke-width:3px}
.torn use{fill:var(--paper);stroke-dasharray:2 2;stroke-width:1.5}
.skip use,.down use{fill:none;stroke:var(--bad);stroke-width:2}
.down text{fill:var(--bad)}
.later{opacity:.12}
.lit line{stroke-width:3.5}
.lit use,.now use{stroke-width:3}
.lit .hit{stroke:transparent;stroke-width:9}
.now text{font-weight:bold}
";

/// The shapes of transactions.
pub(crate) const SHAPES: &str = "<circle id='k0' r='5'/>
<path id='k1' d='M-5-5h10v10h-10z'/>
<path id='k2' d='M0-6l6 11h-12z'/>
<path id='k3' d='M0-7l6 7-6 7-6-7z'/>
<path id='k4' d='M-3-5h6l3 5-3 5h-6l-3-5z'/>
<path id='k5' d='M0 6l6-11h-12z'/>
<path id='k6' d='M-2-6h4v4h4v4h-4v4h-4v-4h-4v-4h4z'/>
<path id='k7' d='M0-7l2 5 5 2-5 2-2 5-2-5-5-2 5-2z'/>
";

/// The signs of items, and those at the end of stubs.
pub(crate) const SIGNS: &str = "<circle id='begin' r='9'/>
<path id='recover' d='M8-4a9 9 0 1 0 1 6M9-9v5h-5'/>
<path id='slow' d='M-9-9h18v18h-18z'/>
<path id='restart' d='M0 8v-15M-5-2l5-6 5 6M-7 8h14'/>
<path id='passed' d='M-5 0a5 5 0 1 0 10 0a5 5 0 1 0-10 0M-4 4l8-8'/>
<path id='dead' d='M-5-5l10 10M5-5l-10 10'/>
<path id='dropped' d='M-3-3l6 6M3-3l-6 6'/>
<path id='lost' d='M-3 0a3 3 0 1 0 6 0a3 3 0 1 0-6 0'/>
<path id='toward' d='M0-5v10M3-5v10'/>
<path id='waits' d='M-1-3h2v2h-2zM-1 2h2v2h-2z'/>
<path id='away' d='M-3-4l5 4-5 4'/>
";
