//! The markup that every page has. A page is complete in itself: it has no script, and refers to nothing outside it.

/// What a page begins with, up to its title.
pub(crate) const PAGE_START: &str = "<!DOCTYPE html>
<html lang=\"en\">
<head>
<meta charset=\"utf-8\">
<meta name=\"viewport\" content=\"width=device-width, initial-scale=1\">
<title>";

/// What stands between the title and the same as the first heading.
pub(crate) const PAGE_STYLE: &str = "</title>
<style>
:root { color-scheme: light dark; --ground: #ffffff; --ink: #1b1b1f; --faint: #8a8a94; --line: #d4d4dc; --band: #f3f3f7; }
@media (prefers-color-scheme: dark) {
  :root { --ground: #17171b; --ink: #e6e6ea; --faint: #85858f; --line: #3a3a42; --band: #212127; }
}
body { margin: 0 auto; max-width: 46rem; padding: 1rem; font: 1rem/1.5 sans-serif; background: var(--ground); color: var(--ink); }
h1 { font-size: 1.5rem; }
h2 { font-size: 1.2rem; margin-top: 2rem; }
table { width: 100%; border-collapse: collapse; font-variant-numeric: tabular-nums; }
th, td { padding: 0.25rem 0.4rem; border-bottom: 1px solid var(--line); text-align: right; }
th { position: sticky; top: 0; background: var(--ground); box-shadow: inset 0 -1px var(--line); }
th:nth-child(2), td:nth-child(2) { text-align: left; }
td:nth-child(2) { font-family: monospace; white-space: pre; }
.levels :is(th, td):nth-child(3) { text-align: left; }
.unsolved { color: var(--faint); }
tbody tr:nth-child(even) { background: var(--band); }
@media (max-width: 30rem) {
  body { padding: 0.5rem; font-size: 0.85rem; }
  th, td { padding: 0.25rem 0.2rem; }
  th { font-size: 0.7rem; }
}
</style>
</head>
<body>
<h1>";

/// What follows the first heading.
pub(crate) const PAGE_BODY: &str = "</h1>
";

/// What the table of a file begins with: the names of its columns.
pub(crate) const TABLE_HEAD: &str = "<table>
<thead>
<tr><th>Level</th><th>Password</th><th>Seconds</th><th>Ticks</th><th>Moves</th><th>Bytes</th></tr>
</thead>
<tbody>
";

/// The same by a list of levels.
pub(crate) const LEVEL_TABLE_HEAD: &str = "<table class=levels>
<thead>
<tr><th>Level</th><th>Password</th><th>Name</th><th>Time left</th><th>Seconds</th><th>Moves</th></tr>
</thead>
<tbody>
";

/// What the section with both rulesets side by side begins with.
pub(crate) const SIDES_HEAD: &str = "<section>
<h2>Lynx and MS</h2>
<table class=levels>
<thead>
<tr><th>Level</th><th>Password</th><th>Name</th><th>Lynx</th><th>MS</th></tr>
</thead>
<tbody>
";

/// What follows the last row of a file.
pub(crate) const TABLE_END: &str = "</tbody>
</table>
</section>
";

/// What a page ends with.
pub(crate) const PAGE_END: &str = "</body>
</html>
";
