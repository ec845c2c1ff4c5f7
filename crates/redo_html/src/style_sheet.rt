//! The style sheet of a page.

/// The style sheet. It loads nothing. The definitions cite it, and the tests have a copy of their own.
pub const STYLE_SHEET: &[u8] = b"\
    :root{color-scheme:light dark;--bg:#fff;--fg:#1c2128;--dim:#59636e;--line:#d8dee4;--soft:#f6f8fa;--link:#0550ae;--bad:#c3212b;--good:#1a7f37;--bar:#3a6ea5;--bar2:#2c5885;--wrap:#d0d9e4;--odd:#8a4600;--oddbg:#fff3d6;--r:#c3212b;--g:#1a7f37;--y:#7d5300;--b:#0550ae;--m:#8250b3;--c:#0b6a75}\n\
    @media (prefers-color-scheme:dark){:root{--bg:#0f1318;--fg:#dfe5ec;--dim:#98a2ae;--line:#2e353e;--soft:#171c23;--link:#7cb7ff;--bad:#ff7b72;--good:#56d364;--bar:#4178b3;--bar2:#376799;--wrap:#2b3440;--odd:#f0b45a;--oddbg:#33270f;--r:#ff7b72;--g:#56d364;--y:#e3b341;--b:#7cb7ff;--m:#d2a8ff;--c:#56d4dd}}\n\
    *{box-sizing:border-box}\n\
    html{scroll-padding-top:3.2rem;-webkit-text-size-adjust:100%}\n\
    body{margin:0;background:var(--bg);color:var(--fg);font:15px/1.5 system-ui,-apple-system,\"Segoe UI\",Roboto,\"Helvetica Neue\",Arial,sans-serif}\n\
    header,nav ul,main,footer{max-width:84rem;margin:0 auto;padding:0 1.5rem}\n\
    a{color:var(--link);text-decoration:none}\n\
    a:hover{text-decoration:underline}\n\
    :focus-visible{outline:2px solid var(--link);outline-offset:2px;border-radius:3px}\n\
    header{padding-top:1.25rem}\n\
    h1{font-size:1.65rem;line-height:1.25;margin:0;font-weight:650}\n\
    .sign{display:inline-block;width:1.7em;height:1.7em;line-height:1.7em;font-size:.85em;text-align:center;border-radius:50%;color:var(--bg);background:var(--good);margin-right:.25em}\n\
    .bad .sign{background:var(--bad)}\n\
    .open .sign{background:var(--dim)}\n\
    header p{margin:.35rem 0 .5rem;color:var(--dim)}\n\
    nav{position:sticky;top:0;z-index:1;background:var(--bg);border-bottom:1px solid var(--line)}\n\
    nav ul{display:flex;flex-wrap:wrap;gap:0 1.4rem;list-style:none}\n\
    nav a{display:block;padding:.45rem 0}\n\
    section{margin:1.5rem 0 2.2rem}\n\
    h2{font-size:1.2rem;margin:0 0 .7rem;font-weight:650}\n\
    h3{font-size:1rem;margin:1.1rem 0 .3rem;font-weight:600;overflow-wrap:anywhere}\n\
    bdi,code,pre,td.n{font-family:ui-monospace,SFMono-Regular,\"SF Mono\",Menlo,Consolas,\"Liberation Mono\",\"DejaVu Sans Mono\",monospace}\n\
    bdi,code{font-size:.92em;overflow-wrap:anywhere}\n\
    pre{margin:.25rem 0;padding:.5rem .75rem;background:var(--soft);border:1px solid var(--line);border-radius:6px;font-size:12.5px;line-height:1.45;white-space:pre-wrap;overflow-wrap:anywhere;tab-size:8;direction:ltr;unicode-bidi:isolate;content-visibility:auto;contain-intrinsic-size:auto 10rem}\n\
    pre+pre{margin-top:-.25rem;border-top:0;border-radius:0 0 6px 6px}\n\
    pre em{font-style:normal;font-weight:700;box-shadow:-4px 0 var(--soft),-7px 0 var(--bad);-webkit-box-decoration-break:clone;box-decoration-break:clone}\n\
    i{font-style:normal;color:var(--odd);background:var(--oddbg);border-radius:2px}\n\
    .r{color:var(--r)}.g{color:var(--g)}.y{color:var(--y)}.b{color:var(--b)}.m{color:var(--m)}.c{color:var(--c)}\n\
    .x,.o{display:inline-block;font-size:.78rem;font-weight:600;line-height:1.35;padding:0 .45em;border-radius:1em;color:var(--bg);background:var(--bad);white-space:nowrap;vertical-align:.08em}\n\
    .o{background:var(--dim)}\n\
    small,.quiet,.meta,.note,.cut{color:var(--dim);font-size:.85rem}\n\
    small em{font-style:normal;color:var(--y)}\n\
    .quiet,.meta,.cut{margin:.25rem 0 .5rem}\n\
    .cut{padding-left:.75rem;border-left:3px solid var(--line)}\n\
    .problem{padding:.5rem .75rem;border:1px solid var(--odd);border-radius:6px;background:var(--oddbg)}\n\
    article{margin:0 0 1rem;padding:.1rem 1rem .6rem;border:1px solid var(--line);border-left:4px solid var(--bad);border-radius:6px}\n\
    article h3{margin:.5rem 0 0}\n\
    article .meta{margin:0 0 .35rem}\n\
    .list{margin:.25rem 0 1rem;padding-left:1.9rem}\n\
    .list li{padding:.1rem 0}\n\
    .list code{color:var(--dim)}\n\
    .more>summary{font-weight:600}\n\
    dl{display:flex;flex-wrap:wrap;gap:.6rem;margin:0}\n\
    dl div{flex:1 1 auto;min-width:7rem;padding:.45rem .8rem;border:1px solid var(--line);border-radius:6px;background:var(--soft)}\n\
    dt{color:var(--dim);font-size:.8rem}\n\
    dd{margin:0;font-size:1.15rem;font-weight:600;white-space:nowrap}\n\
    .cols{display:grid;grid-template-columns:repeat(auto-fit,minmax(min(100%,26rem),1fr));gap:0 2.5rem}\n\
    table{width:100%;border-collapse:collapse;font-size:.88rem}\n\
    th,td{padding:.16rem 0;border-bottom:1px solid var(--line)}\n\
    th{font-weight:400;text-align:left;overflow-wrap:anywhere}\n\
    td.n{text-align:right;white-space:nowrap;padding:0 .8em;font-size:.92em}\n\
    td.m{width:28%}\n\
    td svg{display:block}\n\
    td rect{fill:var(--bar)}\n\
    .scroll{overflow-x:auto;border:1px solid var(--line);border-radius:6px;padding:.5rem}\n\
    .scroll>svg{display:block;min-width:40rem;font-family:system-ui,sans-serif}\n\
    .axis{stroke:var(--line);fill:var(--dim)}\n\
    .axis text{stroke:none}\n\
    .k rect{fill:var(--bar)}\n\
    .k a:nth-child(even) rect{fill:var(--bar2)}\n\
    .e rect{fill:var(--odd)}\n\
    .w rect{fill:var(--wrap)}\n\
    .w text{fill:var(--fg)}\n\
    .k rect.f,.w rect.f,.e rect.f,.k a:nth-child(even) rect.f{fill:#c62828}\n\
    .k text,.w .f~text{fill:#fff}\n\
    .scroll a:hover rect{opacity:.75}\n\
    .tree,.tree ul{list-style:none;margin:0;padding:0}\n\
    .tree ul{margin-left:.32rem;padding-left:.75rem;border-left:1px solid var(--line)}\n\
    .tree li{padding:.06rem 0 .06rem 1.1rem}\n\
    .tree li>details{margin-left:-1.1rem}\n\
    .tree li>pre{margin-left:-.35rem}\n\
    .tree>li>details>ul>li{content-visibility:auto;contain-intrinsic-size:auto 1.6rem}\n\
    summary{cursor:pointer;border-radius:4px}\n\
    summary:hover{background:var(--soft)}\n\
    li:target,details:target>summary,article:target{background:var(--oddbg)}\n\
    .s>summary{color:var(--dim);font-size:.88rem}\n\
    footer{border-top:1px solid var(--line);color:var(--dim);font-size:.85rem;padding-bottom:2rem}\n\
    @media (max-width:40rem){html{scroll-padding-top:5.2rem}header,nav ul,main,footer{padding:0 .8rem}header{padding-top:.8rem}h1{font-size:1.3rem}nav ul{gap:0 1rem}pre{font-size:11.5px;padding:.4rem .5rem}article{padding:.1rem .6rem .5rem}dl div{min-width:6rem;padding:.35rem .6rem}td.m{width:16%}.tree ul{margin-left:.2rem;padding-left:.35rem}.tree ul ul ul ul ul ul{margin-left:0;padding-left:0;border-left:0}.tree li>pre{margin-left:-1.1rem}}\n\
    @media print{:root{color-scheme:light;--bg:#fff;--fg:#000;--dim:#444;--line:#bbb;--soft:#fff;--link:#000;--bad:#b3151f;--good:#1a7f37;--odd:#6b3600;--oddbg:#fff;--bar:#3a6ea5;--bar2:#2c5885;--wrap:#d0d9e4;--r:#b3151f;--g:#1a7f37;--y:#6b4700;--b:#0550ae;--m:#6f3fa0;--c:#0b6a75}nav{display:none}header,main,footer{max-width:none;padding:0}body{font-size:10pt}pre{content-visibility:visible;font-size:8pt}.tree>li>details>ul>li{content-visibility:visible}tr,dl div{break-inside:avoid}h2,h3,summary{break-after:avoid}.scroll{overflow:hidden}.scroll>svg{min-width:0;width:100%}*{print-color-adjust:exact;-webkit-print-color-adjust:exact}}\n";
