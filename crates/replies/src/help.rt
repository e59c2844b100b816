// The help: how words are written, then each call with an example and its answer.
ghost use Rattle.std.specs.Prelude.{◌+◌, ◌≤◌, length};

use crate::arguments;
use lines::{Text, Words};

const HELP: [u8; 9026] = *b"The grid of the globe: one call to a line, and one line for its answer.

  WORD     0x and 1 to 16 hexadecimal digits
  CODE     a triangle code, as 10003 for side 100 and digits 0 and 3; or a WORD
  NAME     a corner name, as a WORD
  SMALL    a small word, of 32 bits: 0x and 1 to 8 hexadecimal digits
  X Y Z    a direction: three whole numbers
  PLACES   0 to 16, of paper and paper-name 0 to 32: how many places the lent list has. They hold 1, 2, 3 and so on
           before the call, and stand after the answer as the call leaves them
  DIGITS   a code of source document 000, its digits written together
  MM       millimetres, a whole number: a reading is 0 to 100000. VALUE, FILL of table and NUMBER are whole numbers too
  DESK     1 for the ice desk, 2 for the pilotage desk. OWNER and FILL of owners: 0 for nobody, or any to 255

Any other number is decimal, or a WORD. A line that begins with # is a remark.
Under each call stand an example and its answer. A refused call answers its number and the reason.

check CODE                          whether the word is a triangle code
  check 10003                       ok

check-name NAME                     whether the word is a corner name
  check-name 0x2000000000000001     ok

parent CODE                         the triangle of which it is a child
  parent 10003                      1000 0x2040000000000000

child CODE DIGIT                    its child with this digit, 0 to 3
  child 1000 3                      10003 0x208C000000000000

cross CODE EDGE                     the triangle across an edge, and there the numbers of the edge
                                    and of its two corners, the lower one of this triangle first
  cross 1001 2                      2001 0x4050000000000000 edge 3 corners 1 2

opposite CODE                       the triangle opposite on the globe
  opposite 10003                    31002 0x7088000000000000

name CODE CORNER                    the name of a corner, 1 to 3
  name 200 2                        0x2000000000000003 corner 3 of 100

opposite-name NAME                  the name of the corner opposite on the globe
  opposite-name 0x2000000000000003  0x7000000000000002 corner 2 of 310

back DEGREE WEIGHTS                 the name of the corner with these twelve weights
  back 0 0 0 0 1 0 0 0 0 0 0 0 0    0x2000000000000003 corner 3 of 100

weights CODE CORNER [PLACES]        the corner's twelve weights
  weights 1001 2                    1 0 1 0 0 0 0 0 0 0 0 0

name-weights NAME [PLACES]          the same
  name-weights 0x2000000000000003   0 0 0 1 0 0 0 0 0 0 0 0

exact CODE CORNER                   u and v of its exact coordinates u + v phi on each axis
  exact 1001 2                      x 0 0 y 0 0 z 0 2

name-exact NAME                     the same
  name-exact 0x2000000000000003     x 0 1 y 0 0 z 1 0

t CODE CORNER                       the whole number nearest to 65536 (u + v phi) on each axis
  t 1001 2                          x 0 y 0 z 212079

name-t NAME                         the same
  name-t 0x7000000000000002         x -106039 y 0 z -65536

drawn CODE CORNER                   the drawn coordinates, exactly
  drawn 1001 2                      x 0 y 0 z 1.61803436279296875

name-drawn NAME                     the same
  name-drawn 0x7000000000000002     x -1.6180267333984375 y 0 z -1

bits CODE CORNER                    the bits of the drawn coordinates, each an f64
  bits 1001 2                       x 0x0000000000000000 y 0x0000000000000000 z 0x3FF9E37800000000

name-bits NAME                      the same
  name-bits 0x7000000000000002      x 0xBFF9E37000000000 y 0x0000000000000000 z 0xBFF0000000000000

ring NAME [PLACES]                  the triangles round a corner, anticlockwise
  ring 0x2000000000000003           5: 100 0x2000000000000000, 101 0x2800000000000000, 111 ..

file DEGREE X Y Z                   the least code that holds a direction
  file 2 0 0 1                      10003 0x208C000000000000

list DEGREE X Y Z [PLACES]          all codes that hold it, rising
  list 0 0 0 1                      2: 100 0x2000000000000000, 500 0xA000000000000000

sweep DEGREE PLACES [NUMBER]..      files many directions, three numbers each, into the lent list: how many
                                    are refused, and of the first of them the place, from 0, and the refusal
  sweep 2 2 0 0 1 0 0 0             1 refused, first at place 1 with 7 | 0x208C000000000000 0x0000000000000000

check-cells [CODE]..                whether a cell list is accepted: valid codes that rise, none inside another;
                                    else the first offending place, from 0, and its reason
  check-cells 10003 1001 101        accepted
  check-cells 1001 10012            place 1 reason 4: inside an earlier one

mend-cells MENDED WORDS REASONS [CODE]..
                                    mends a cell list: how many codes are in the mended list, and how many changes
                                    were made. Then the three lent lists, each of as many places as asked, 0 to 64:
                                    the mended list, and of each change the word and the reason: 1 invalid, 3 equal
                                    to an earlier word, 4 inside another word, 5 a merge, named by its parent
  mend-cells 1 1 1 600              words 0, changes 1 | 0x0000000000000001 | 0xC000000000000000 | 1
  mend-cells 4 4 4 1003 1001 1000 1002  words 1, changes 1 | 0x2000000000000000 0x0000000000000002 ..

small CODE                          a code of degree 11 or less as a small word
  small 1001                        1001 0x20A00000

large SMALL                         the code of which it is the small word
  large 0x20A00000                  1001 0x2050000000000000

check-small SMALL                   whether it is the small word of a code
  check-small 0x20A00000            ok

cross-small SMALL EDGE              cross on small words
  cross-small 0x20A00000 2          2001 0x40A00000 edge 3 corners 1 2

file-small DEGREE X Y Z             file on small words
  file-small 2 0 0 1                10003 0x21180000

paper CODE [PLACES]                 the triangle's code in source document 000
  paper 10003                       10003

paper-name NAME [PLACES]            the corner's code there
  paper-name 0x2040000000000003     103

from-paper DIGITS                   the triangle of a code of source document 000
  from-paper 10003                  10003 0x208C000000000000

from-paper-vertex DIGITS            the corner with this vertex code there, by its name
  from-paper-vertex 103             0x2040000000000003 corner 3 of 1000

table DEGREE [LENGTH FILL [PLACE VALUE]..]
                                    opens a table of soundings with no readings, of degree 0 to 6; or any
                                    list of LENGTH numbers, FILL but at each PLACE its VALUE, to try refusals.
                                    All its triangles are nobody's, and all its counts and sums 0
  table 1                           degree 1, 80 places

take DESK CODE                      makes a free triangle the desk's own, with the reading that it has
  take 1 1001                       ok

set DESK CODE MM                    sets the reading of a triangle of the desk's, in millimetres
  set 1 1001 1250                   ok

get CODE                            a triangle's reading, whosever it is
  get 1001                          1250 mm
  get 1002                          no reading

readings                            how many readings the table has, and each with its triangle
  readings                          1 reading: 1001 1250 mm

owners [LENGTH FILL [PLACE OWNER]..]
                                    how many triangles are owned, and each with its desk; or lays any list of
                                    LENGTH owners, FILL but at each PLACE its OWNER, to try refusals
  owners                            1 owned: 1001 desk 1

coarse [CODE]                       of a triangle one degree up: how many of its children have a reading, and what
                                    these come to in millimetres; or how many have either, and each with both
  coarse 100                        count 1 sum 1250
  coarse                            1 parent: 100 count 1 sum 1250

clear DESK CODE                     leaves a triangle of the desk's with no reading
  clear 1 1001                      ok

give DESK CODE                      gives a triangle of the desk's back: it is nobody's, and has no reading
  give 1 1001                       ok

counts LENGTH FILL [PLACE N]..      lays any list of LENGTH counts, FILL but at each PLACE its N, to try refusals
  counts 20 0 0 3                   20 places

sums LENGTH FILL [PLACE N]..        the same of sums
  sums 20 0                         20 places

work-out                            works all counts and sums out afresh from the readings
  work-out                          ok

help                                these lines";

pub fn answer<const N: usize>(words: Words<'_>, out: &mut Text<N>) -> Option<()>
    requires { length out.old + 15000 ≤ N }
    ensures { length out.new ≤ length out.old + 15000 }
{
    arguments::end(&words)?;
    out.push_bytes(&HELP);
    Some(())
}
