//! What stands before the text of a page.
ghost use Rattle.std.specs.Prelude.{◌≡◌};
ghost use Rattle.review.specs.Style.{page_head};

/// The head of a page, to its heading: its style, and a policy by which the browser asks nothing of
/// anybody for it.
#[tactic(auto, unfolding(crate::specs::Style::page_head))]
pub(crate) fn page_head() -> &'static [u8]
    ensures { result.now ≡ page_head }
{
    b"\
      <!doctype html>\n<html lang=\"en\">\n<head>\n<meta charset=\"utf-8\">\n\
      <meta name=\"viewport\" content=\"width=device-width\">\n\
      <meta name=\"color-scheme\" content=\"light dark\">\n\
      <meta http-equiv=\"Content-Security-Policy\"\n\
      content=\"default-src 'none'; style-src 'unsafe-inline'\">\n\
      <title>popbox: review of a policy</title>\n<style>\n\
      :root{--ink:#1c1f24;--paper:#fff;--line:#c9ced4;--link:#0b57a4;\n\
      --up:#155f27;--down:#a4140b;--here:#ffe39c;--no:#f1f3f5;--slip:#ffc2b8;\n\
      --opens:#e3ddcf;--reads:#bcdcff;--removes:#a9e4d2}\n\
      @media screen and (prefers-color-scheme:dark){\n\
      :root{--ink:#e7e9ec;--paper:#15181c;--line:#3c444d;--link:#83bdff;\n\
      --up:#86d895;--down:#ff9d92;--here:#544008;--no:#20252b;--slip:#7c1d12;\n\
      --opens:#443d2c;--reads:#17457a;--removes:#0b4c3e}}\n\
      body{margin:0;padding:0 1em 2em;font:16px/1.45 system-ui,sans-serif;\n\
      color:var(--ink);background:var(--paper);print-color-adjust:exact}\n\
      h1{font-size:1.5em}h2{font-size:1.25em;margin:1.2em 0 .4em}\n\
      h3{font-size:1em;margin:.6em 0 .2em}a{color:var(--link)}\n\
      .up{color:var(--up)}.down{color:var(--down)}\n\
      table{border-collapse:collapse}.scroll{overflow:auto}\n\
      caption{text-align:left;padding:.2em 0}\n\
      th,td{border:1px solid var(--line);padding:.2em .5em;\n\
      text-align:left;vertical-align:top}\n\
      summary{cursor:pointer}.who summary{max-width:24em}\n\
      details table{font-size:.85em;margin:.3em 0}\n\
      details td,details th{background:var(--paper);font-weight:normal}\n\
      .no{background:var(--no)}.slip{background:var(--slip)}\n\
      .opens{background:var(--opens)}.reads{background:var(--reads)}\n\
      .removes{background:var(--removes)}tr:target>*{background:var(--here)}\n\
      pre{margin:0;border:1px solid var(--line);padding:.4em .6em;\n\
      white-space:pre-wrap;font:14px/1.45 ui-monospace,monospace}\n\
      :focus-visible{outline:3px solid var(--link);outline-offset:1px}\n\
      @media print{body{padding:0;font-size:11px}.scroll{overflow:visible}\n\
      a{color:inherit}tr{break-inside:avoid}h2,h3{break-after:avoid}\n\
      summary{list-style:none}pre{font-size:10px}}\n</style>\n</head>\n<body>\n<main>\n\
      <h1>Review of a policy</h1>\n"
}
