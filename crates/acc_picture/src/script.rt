//! The style and the script of a page.

/// The style of a page.
pub(crate) const PAGE_STYLE: &str = ":root{color-scheme:light dark}
body{margin:0;font:15px system-ui,sans-serif;display:flex;flex-direction:column;height:100vh}
header{display:flex;flex-wrap:wrap;gap:.4em;padding:.4em;align-items:center}
header input{flex:1 1 8em;min-width:6em}
main{flex:1;min-height:0;display:flex}
.picture{flex:3;overflow:auto;min-width:0}
.picture svg{display:block}
.side{flex:1;min-width:15em;display:flex;flex-direction:column;min-height:0;border-left:1px solid #8888}
#fields{margin:0;padding:.5em;min-height:9em;max-height:40%;overflow:auto;white-space:pre-wrap;border-bottom:1px solid #8888}
#report{flex:1;margin:0;padding:.5em .5em .5em 3em;overflow:auto;font:13px ui-monospace,monospace}
li.now{font-weight:bold}
li.now::marker{content:'> '}
@media (max-width:700px){
main{flex-direction:column}
.side{min-width:0;border-left:0;border-top:1px solid #8888}
#fields{min-height:5em}
}
";

/// The script of a page.
pub(crate) const SCRIPT: &str = "'use strict';
const all = [...document.querySelectorAll('[data-at]')];
const lines = all.filter(e => e.dataset.n !== undefined);
const marks = all.filter(e => e.dataset.n === undefined);
const slider = document.getElementById('at');
const fields = document.getElementById('fields');
const count = document.getElementById('count');
const most = Number(slider.max);
let at = 0;
let chosen = -1;

// What the title of a mark or a line says.
function said(e) {
  const title = e.querySelector('title');
  return title ? title.textContent : e.textContent;
}

// Lights the line of a message, its repeats, and the marks of the items that sent and took it.
function light(line) {
  for (const e of all) e.classList.remove('lit');
  if (!line) return;
  for (const e of lines) {
    if (e.dataset.n !== line.dataset.n) continue;
    e.classList.add('lit');
    for (const mark of marks) {
      if (mark.dataset.at === e.dataset.at || mark.dataset.at === e.dataset.by) mark.classList.add('lit');
    }
  }
  fields.textContent = said(line);
}

// The lines of messages that the item shown last took or sent.
function near() {
  const now = String(at - 1);
  return lines.filter(e => e.dataset.at === now || e.dataset.by === now);
}

// Shows the first items, and lights the last of them.
function show(to) {
  at = Math.max(0, Math.min(most, to));
  chosen = -1;
  slider.value = at;
  count.textContent = at + ' of ' + most;
  light(null);
  let mark = null;
  for (const e of all) {
    const place = Number(e.dataset.at);
    e.classList.toggle('later', place >= at);
    e.classList.toggle('now', place === at - 1 && e.dataset.n === undefined);
    if (place === at - 1 && e.dataset.n === undefined && !mark) mark = e;
  }
  fields.textContent = mark ? said(mark) : '';
  for (const e of near()) if (e.dataset.at === String(at - 1)) e.classList.add('lit');
  if (mark) mark.scrollIntoView({block: 'nearest', inline: 'center'});
  const line = document.querySelector('#report .now');
  if (line) line.scrollIntoView({block: 'nearest'});
}

// Goes to another message of the item shown last.
function choose(by) {
  const some = near();
  if (some.length === 0) return;
  chosen = (chosen + by + some.length + (chosen < 0 && by < 0 ? 1 : 0)) % some.length;
  light(some[chosen]);
}

function key(event) {
  if (event.target === slider && event.key.startsWith('Arrow')) event.preventDefault();
  switch (event.key) {
    case 'ArrowRight': show(at + 1); break;
    case 'ArrowLeft': show(at - 1); break;
    case 'ArrowDown': choose(1); break;
    case 'ArrowUp': choose(-1); break;
    case 'Home': show(0); break;
    case 'End': show(most); break;
    default: return;
  }
  event.preventDefault();
}

document.addEventListener('keydown', key);
document.getElementById('first').addEventListener('click', () => show(0));
document.getElementById('back').addEventListener('click', () => show(at - 1));
document.getElementById('next').addEventListener('click', () => show(at + 1));
document.getElementById('last').addEventListener('click', () => show(most));
slider.addEventListener('input', () => show(Number(slider.value)));
for (const e of lines) {
  e.addEventListener('pointerenter', () => light(e));
  e.addEventListener('click', () => light(e));
}
for (const e of marks) e.addEventListener('click', () => show(Number(e.dataset.at) + 1));
show(most);
";
