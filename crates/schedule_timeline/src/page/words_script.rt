/// The JavaScript that shows the words of a small heap: to which object each belongs, before the collection and after each line.
pub(crate) const WORDS_SCRIPT: &str = r##"'use strict';
const heapWords = (() => {
  const element = (id) => document.getElementById(id);
  const counted = (number, name) => number + ' ' + name + (number === 1 ? '' : 's');
  const rows = element('heap').textContent.trim().split('\n').map((row) => row.split(' ').slice(1));
  if (rows.length < 2) return null;
  const words = rows[1];
  const objects = [];
  for (let i = 0; i + 3 < rows[0].length; i += 4) {
    const [at, size, references, to] = rows[0].slice(i, i + 4).map(Number);
    objects.push({ at, size, references, to, name: String.fromCharCode(65 + (objects.length % 26)) + (objects.length < 26 ? '' : Math.floor(objects.length / 26)) });
  }

  // Of each address the object that has it, and the number of the word in it: where objects were, or where they go.
  const placed = (place) => {
    const found = new Map();
    objects.forEach((object, number) => {
      for (let j = 0; j < object.size; j += 1) found.set(object[place] + j, { object, number, j });
    });
    return found;
  };
  const [before, after] = [placed('at'), placed('to')];
  const byAddress = new Map(objects.map((object) => [object.at, object]));

  // An object that crosses the end of a region keeps its old references until all regions are filled.
  const isLate = ({ to, size }, each) => Math.floor(to / each) !== Math.floor((to + size - 1) / each);

  // What a word is, in short and in words.
  const meaning = ({ object, j }, isMoved, each) => {
    const whose = ' of object ' + object.name;
    if (j === 0) return ['head', 'header' + whose + ', ' + counted(object.size, 'word') + ', ' + counted(object.references, 'reference')];
    const word = words[object.at + j];
    if (j > object.references) return [word.length > 5 ? 'data' : word, 'data word' + whose + ', ' + word];
    if (word === '0') return ['null', 'null reference' + whose];
    const target = byAddress.get(Number(word) - 1);
    const isNew = isMoved && !isLate(object, each);
    return ['\u2192' + (isNew ? target.to : target.at), 'reference' + whose + ' to object ' + target.name + ', '
      + (isNew ? 'redirected to ' + target.to : 'at ' + target.at + (isMoved ? ', redirected once all regions are filled' : ''))];
  };

  const cellOf = (address, its, isMoved, each, isNow) => {
    const [short, long] = its ? meaning(its, isMoved, each) : isMoved ? ['fill', 'filler'] : ['', 'dead word'];
    const old = its && isMoved ? its.object.at + its.j : address;
    const said = 'word ' + address + ': ' + long + (old === address ? '' : ', from word ' + old + ' of region ' + Math.floor(old / each));
    return '<td class="' + (its ? 'o' + (its.number % 6) : 'dead') + (isNow ? ' now' : '') + '" title="' + said + '"><span aria-hidden="true"><b>'
      + (its ? its.object.name : '\u00b7') + '</b>' + short + '</span><span class="unseen">' + said + '</span></td>';
  };

  const tableOf = (name, regions, headOf, cell) => {
    const each = words.length / regions;
    const lines = Array.from({ length: regions }, (_, r) => '<tr><th scope="row">region ' + r + '<small>' + headOf(r) + '</small></th>'
      + Array.from({ length: each }, (__, i) => cell(r, i, r * each + i, each)).join('') + '</tr>');
    return '<table><caption>' + name + '</caption><tbody>' + lines.join('') + '</tbody></table>';
  };

  const begin = (regions) => {
    element('words').hidden = false;
    element('words-before').innerHTML = tableOf('Before the collection', regions, () => '', (r, i, address, each) =>
      cellOf(address, before.get(address), false, each, false));
  };

  // The words after a line, of which the call is given: the first ones of a region are written, the others as before.
  const show = (state, line, call, isToFill) => {
    const doing = ['', 'claimed by', 'filled by', 'filled by', 'filled by'];
    const headOf = (r) => (state.stage[r] === 2 ? 'worker ' + state.owner[r] + ' fills'
      : state.stage[r] ? doing[state.stage[r]] + ' worker ' + state.owner[r] : isToFill(r) ? '' : 'not filled');
    const written = (r) => (isToFill(r) ? state.written[r] : 0);
    const isNow = (r, i) => !!call && call.verb === 'copy' && call.region === r && i < written(r) && i >= written(r) - call.other;
    element('words-now').innerHTML = tableOf('After line ' + line, state.stage.length, headOf, (r, i, address, each) => {
      const isMoved = i < written(r);
      return cellOf(address, (isMoved ? after : before).get(address), isMoved, each, isNow(r, i));
    });
  };

  return { begin, show };
})();
"##;
