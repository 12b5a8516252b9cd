/// The style of a picture, light or dark as the reader's system asks.
pub(crate) const STYLE: &str = "<style>\n\
    text { font: 11px 'Helvetica Neue', Arial, sans-serif; fill: #222222 }\n\
    line, path, circle { fill: none; stroke-width: 1.5px; stroke: #1f4e8c }\n\
    rect { stroke: none }\n\
    .paper { fill: #ffffff }\n\
    .stripe { fill: #f5f6f8 }\n\
    .names { fill: #e9edf3 }\n\
    .band { fill: #1f4e8c; fill-opacity: 0 }\n\
    .row:hover .band { fill-opacity: 0.12 }\n\
    .name { font-weight: bold; font-size: 12px; text-anchor: middle }\n\
    .space { font-size: 10px; fill: #777777; text-anchor: middle }\n\
    .n, .m { font-size: 10px; fill: #777777; text-anchor: end }\n\
    .again { font-style: italic }\n\
    .copies { font-weight: bold }\n\
    .os, .or { font-size: 10px; text-anchor: middle; paint-order: stroke; stroke: #ffffff; stroke-width: 3px }\n\
    .os { fill: #a85b00 }\n\
    .or { fill: #23689b }\n\
    .life { stroke: #b4b8bf; stroke-width: 1px }\n\
    .rw { fill: #a9d3f2 }\n\
    .sw { fill: #f5a945 }\n\
    .pattern { stroke: #777777; stroke-width: 3px }\n\
    .begun { stroke-dasharray: 6 3 }\n\
    .stop { stroke: #7b3fa0; stroke-dasharray: 4 3 }\n\
    .miss { stroke: #a0a0a0; stroke-dasharray: 2 4 }\n\
    .cancel { fill: none; stroke: #7b3fa0; stroke-width: 1.5px }\n\
    .bad { stroke: #c0281c }\n\
    .end { stroke: #555555 }\n\
    .late { stroke: #c0281c }\n\
    .turn { stroke: #2a7d3f }\n\
    .full { fill: #1f4e8c }\n\
    .head { fill: #1f4e8c; stroke: none }\n\
    .badhead { fill: #c0281c; stroke: none }\n\
    .stophead { fill: #7b3fa0; stroke: none }\n\
    .misshead { stroke: #a0a0a0; stroke-width: 1px }\n\
    @media (prefers-color-scheme: dark) {\n\
    text { fill: #dddddd }\n\
    line, path, circle { stroke: #7db3ee }\n\
    .paper { fill: #16181d }\n\
    .stripe { fill: #1d2027 }\n\
    .names { fill: #2a2f39 }\n\
    .band { fill: #7db3ee }\n\
    .space, .n, .m { fill: #9a9a9a }\n\
    .os, .or { stroke: #16181d }\n\
    .os { fill: #f5b45f }\n\
    .or { fill: #8cc6f0 }\n\
    .life { stroke: #565b66 }\n\
    .rw { fill: #2b5f86 }\n\
    .sw { fill: #b36f12 }\n\
    .stop, .cancel { stroke: #c08ae0 }\n\
    .miss, .misshead { stroke: #777777 }\n\
    .bad, .late { stroke: #ff7b6e }\n\
    .end { stroke: #aaaaaa }\n\
    .turn { stroke: #6cc784 }\n\
    .full, .head { fill: #7db3ee }\n\
    .badhead { fill: #ff7b6e }\n\
    .stophead { fill: #c08ae0 }\n\
    }\n\
    </style>\n";

/// What an HTML page has beside: its own words, and rows that are found or not.
pub(crate) const PAGE_STYLE: &str = "<style>\n\
    :root { color-scheme: light dark }\n\
    body { margin: 0; font: 13px 'Helvetica Neue', Arial, sans-serif; background: #ffffff; color: #222222 }\n\
    header { position: sticky; top: 0; padding: 8px 16px; background: #e9edf3; display: flex; gap: 12px; align-items: center; z-index: 1 }\n\
    section { content-visibility: auto; overflow-x: auto }\n\
    h2 { font-size: 13px; margin: 16px }\n\
    svg { display: block }\n\
    input { font: inherit; width: 22em }\n\
    .gone { opacity: 0.25 }\n\
    .found .band { fill: #f2c200; fill-opacity: 0.25 }\n\
    .here .band { fill: #f2c200; fill-opacity: 0.6 }\n\
    @media (prefers-color-scheme: dark) {\n\
    body { background: #16181d; color: #dddddd }\n\
    header { background: #2a2f39 }\n\
    }\n\
    </style>\n";

/// What an HTML page does: it finds the rows that have some words, and goes to them and to pages.
/// It asks nothing of a network.
pub(crate) const SCRIPT: &str = "<script>\n\
    const rows = [...document.querySelectorAll('g.row')];\n\
    const texts = rows.map(row => row.textContent.toLowerCase());\n\
    const field = document.getElementById('field'), told = document.getElementById('told');\n\
    let found = [], here = -1;\n\
    function look() {\n\
    const words = field.value.toLowerCase().trim();\n\
    found = []; here = -1;\n\
    rows.forEach((row, place) => {\n\
    const has = words !== '' && texts[place].includes(words);\n\
    row.classList.toggle('found', has);\n\
    row.classList.toggle('gone', words !== '' && !has);\n\
    row.classList.remove('here');\n\
    if (has) found.push(row);\n\
    });\n\
    told.textContent = words === '' ? rows.length + ' rows' : found.length + ' of ' + rows.length + ' rows';\n\
    }\n\
    function go(by) {\n\
    if (!found.length) return;\n\
    if (here >= 0) found[here].classList.remove('here');\n\
    here = (here < 0 ? (by > 0 ? 0 : found.length - 1) : here + by + found.length) % found.length;\n\
    found[here].classList.add('here');\n\
    found[here].scrollIntoView({ block: 'center' });\n\
    told.textContent = (here + 1) + ' of ' + found.length + ' found';\n\
    }\n\
    let timer = 0;\n\
    field.addEventListener('input', () => { clearTimeout(timer); timer = setTimeout(look, 120); });\n\
    field.addEventListener('keydown', event => {\n\
    if (event.key !== 'Enter') return;\n\
    clearTimeout(timer);\n\
    if (here < 0) look();\n\
    go(event.shiftKey ? -1 : 1);\n\
    });\n\
    document.getElementById('page').addEventListener('change', event => {\n\
    document.getElementById('page' + event.target.value)?.scrollIntoView();\n\
    });\n\
    look();\n\
    </script>\n";
