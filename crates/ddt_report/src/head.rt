//! The fixed beginning of a page.

ghost use Rattle.std.specs.Prelude.{◌≡◌, ◌++◌, OnOk};
ghost use Rattle.ddt_report.specs.Head.{opening_text, style_text, title_text};

use std::alloc::AllocError;

/// The beginning of the document. Its policy allows browsers to load nothing and to run no script.
const OPENING: &[u8] = b"<!DOCTYPE html>
<html lang='en'>
<head>
<meta charset='utf-8'>
<meta name='viewport' content='width=device-width, initial-scale=1'>
<meta http-equiv='Content-Security-Policy' content=\"default-src 'none'; style-src 'unsafe-inline'\">
<title>A change of a register</title>
<style>
";

/// Its style, for light screens and for dark ones.
const STYLE: &[u8] = b":root{color-scheme:light dark}
:root{--ink:#1b1b1b;--paper:#fff;--line:#c8c8c8;--soft:#5a5a5a;--head:#f0f0f0}
:root{--added:#d9f2dc;--removed:#fbdcdc;--changed:#fdf0cf;--wait:#e3e8f4}
@media(prefers-color-scheme:dark){
:root{--ink:#e8e8e8;--paper:#161616;--line:#4a4a4a;--soft:#bbb;--head:#262626}
:root{--added:#173d1d;--removed:#4d1a1a;--changed:#453713;--wait:#232d47}
}
body{font:15px/1.45 sans-serif;color:var(--ink);background:var(--paper)}
body{max-width:86em;margin:1.5em auto;padding:0 1.2em}
h1{font-size:1.6em}
h2{font-size:1.2em;margin:2em 0 .5em}
p{color:var(--soft)}
figure{margin:0;overflow-x:auto}
table{border-collapse:collapse;font:13px/1.4 monospace;display:block;overflow-x:auto}
th{font-family:sans-serif;text-align:left;background:var(--head)}
td,th{border:1px solid var(--line);padding:.25em .7em;vertical-align:top}
.added{background:var(--added)}
.removed{background:var(--removed)}
.changed{background:var(--changed)}
.wait td{background:var(--wait);padding:.8em .7em}
.step td:first-child{border-left:5px solid #3d85c6}
.wait td:first-child{border-left:5px dashed #b45f06}
.legend span{padding:.1em .6em;border:1px solid var(--line);margin-right:.5em;color:var(--ink)}
";

/// Its heading.
const TITLE: &[u8] = b"</style>
</head>
<body>
<h1>A change of a register</h1>
";

/// Appends the beginning of a page, with its title. Fails only if out of memory.
pub(crate) fn push_head(html: &mut Vec<u8>) -> Result<(), AllocError>
    ensures { OnOk result (html.new.items ≡ html.old.items ++ opening_text ++ style_text ++ title_text) }
{
    push_opening(html)?;
    push_style(html)?;
    push_title(html)
}

#[tactic(auto, unfolding(crate::specs::Head::opening_text))]
fn push_opening(html: &mut Vec<u8>) -> Result<(), AllocError>
    ensures { OnOk result (html.new.items ≡ html.old.items ++ opening_text) }
{
    html.extend_from_slice(OPENING)
}

#[tactic(auto, unfolding(crate::specs::Head::style_text))]
fn push_style(html: &mut Vec<u8>) -> Result<(), AllocError>
    ensures { OnOk result (html.new.items ≡ html.old.items ++ style_text) }
{
    html.extend_from_slice(STYLE)
}

#[tactic(auto, unfolding(crate::specs::Head::title_text))]
fn push_title(html: &mut Vec<u8>) -> Result<(), AllocError>
    ensures { OnOk result (html.new.items ≡ html.old.items ++ title_text) }
{
    html.extend_from_slice(TITLE)
}
