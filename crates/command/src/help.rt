// The texts that the help commands print.

pub(crate) const VERSION: &str = "nakvisk 0.8.0\n";

pub(crate) const HELP: &str = "nakvisk plan SHEETS
    lists the plan that three sheets give
nakvisk convert [--source-columns] [--target-columns] [--fail-if-lost]
                SHEETS SOURCE TARGET
    converts a file of points by that plan
nakvisk help [COMMAND]
    tells more of a command
nakvisk --version

Converts points from one layout to another. The layouts and the mapping between
them are written down in three sheets; docs/SHEETS.md teaches how.

Options come before operands, and -- ends them. Exit status:
  0   done
  1   refused: the number and its sentence are on standard error
  2   trouble with a file: it cannot be read or written, or is not what it has
      to be
  3   numbers would be lost, and --fail-if-lost forbids it
  64  wrong usage

Example, at the root of the repository:
  target/bin/nakvisk convert examples/scan.sheets examples/scan.points scan.converted
";

pub(crate) const HELP_OF_PLAN: &str = "nakvisk plan SHEETS

Lists the plan that three sheets give on standard output: a line for each of the
two layouts (attributes, point size, alignment), then one for each mapping
(offset and size in the source, offset and size in the target, copy or cast, the
target attribute's name).

  SHEETS  a file with three sheets, each after its length in two bytes: the
          layout of the source's points, that of the target's, and the
          mapping. At most 4,096 bytes. - reads them from standard input.

Sheets that cannot be used are refused with status 1: standard error has the
number, its sentence, and which sheet, attribute or line it is about; attributes
and lines count from 0. A target attribute that no mapping names is told on
standard error.
";

pub(crate) const HELP_OF_CONVERT: &str =
    "nakvisk convert [--source-columns] [--target-columns] [--fail-if-lost]
                SHEETS SOURCE TARGET

Converts a file of points from one layout to another. One line on standard
output tells the number of points, the bytes of both files, and how many
components were lost: numbers, or one of the three of a Vec3, whose cast is
another number. A line for each target attribute that lost some follows.

  --source-columns, --target-columns
          the points of SOURCE are columns, those of TARGET are to be: for each
          attribute in list order the values of all points one after another,
          without padding. Without the option, points are interleaved: one
          after the other, each as long as the point size. A file does not tell
          which of the two it is.
  --fail-if-lost
          make no target, and end with status 3, where a component would be
          lost.
  SHEETS  as for nakvisk plan.
  SOURCE  a regular file of points and nothing else. Its length is a multiple of
          the source's point size, or, of columns, of the sum of its attribute
          sizes; where that is 0, the file is empty. Any number of points; the
          memory used stays the same.
  TARGET  the file to write: the same points in the layout of the target. Target
          bytes that no mapping names are zero. A link, a device and the file of
          the sheets are not replaced.

A NaN that is cast to a float keeps its sign and the 22 payload bits below the
quiet bit, which is set. Equal datatypes are copied, bit for bit.

TARGET is written under another name in its directory, nakvisk.PROCESS.0.part,
and takes its own when it is whole and on its device; so an older file of that
name is lost only then, and TARGET may be SOURCE. The new file has the mode of
the one that it replaces. Where something fails on the way, the part is removed
and an older target is as it was. A run that is killed leaves its part behind,
which no later run needs or reads: remove it.
Runs beside each other onto one TARGET do not disturb each other: the last to
end gives the file.

A SOURCE that grows or shrinks while it is read is trouble, status 2, and so is
a pipe, or a device that gives bytes. A pipe that nothing is written to makes
the command wait, as it does every program. Where a conversion takes more than a
few seconds, standard error tells how far it is.
";

pub(crate) const HELP_OF_HELP: &str = "nakvisk help [COMMAND]

Tells how nakvisk is used, or more of a command: plan, convert, help.
nakvisk COMMAND --help does the same.
";

pub(crate) const WRONG_USAGE: &str = "wrong usage. It is one of
  nakvisk plan SHEETS
  nakvisk convert [--source-columns] [--target-columns] [--fail-if-lost]
                  SHEETS SOURCE TARGET
  nakvisk help [COMMAND]
  nakvisk --version";
