//! The rows of the tests of command words: one list of words per row, separated by `|`. The tests
//! themselves are in the parent module.

/// Each row has words and, after `=>`, the command that they form:
///
/// - the name of the command and its file;
/// - for `check` the number of `--tick-ms`;
/// - for `replay` and `whatif` the rules file with the drop-in file after `+`, the numbers of
///   `--tick-ms`, `--interval-s`, `--report-s` and `--workers`, the path of `--live`, and the
///   number of `--live-count`;
/// - for `gen` and `stress` the numbers of `--seed`, `--cpus`, `--groups` and `--events`, and for
///   `stress` the number of `--workers`;
/// - for `import` the number of `--cpus`, and for `rules` the drop-in file.
pub const ACCEPTED: &str = "whatif|X|--rules=R => whatif X R 2000 5 10 64 none 1
whatif|-|--rules|R => whatif - R 2000 5 10 64 none 1
whatif|--drop-in=D|--report-s=0|X|--rules=R => whatif X R+D 2000 5 0 64 none 1
whatif|X|--rules=R|--tick-ms=1000|--interval-s=7|--workers=3 => whatif X R 1000 7 10 3 none 1
stall|X => stall X
stall|- => stall -
stall|help => stall help
stall|stall => stall stall
stall|X Y => stall X Y
stall|é => stall é
stall|--|X => stall X
stall|X|-- => stall X
stall|--|-x => stall -x
stall|--|-- => stall --
stall|--|--tick-ms=5 => stall --tick-ms=5
stall|--|--help => stall --help
stall|a=b => stall a=b
check|X => check X 2000
check|- => check - 2000
check|X|--tick-ms|1 => check X 1
check|X|--tick-ms=60000 => check X 60000
check|--tick-ms|5|X => check X 5
check|--tick-ms|5|--|--tick-ms => check --tick-ms 5
replay|X => replay X none 2000 5 10 64 none 1
replay|--tick-ms=5|X => replay X none 5 5 10 64 none 1
replay|X|--tick-ms|5 => replay X none 5 5 10 64 none 1
replay|--tick-ms|5|--|X => replay X none 5 5 10 64 none 1
replay|X|--report-s|0 => replay X none 2000 5 0 64 none 1
replay|X|--report-s=3600 => replay X none 2000 5 3600 64 none 1
replay|--report-s|7|X|--tick-ms=9 => replay X none 9 5 7 64 none 1
replay|--tick-ms|9|X|--report-s=7 => replay X none 9 5 7 64 none 1
replay|--report-s=7|--tick-ms=9|X => replay X none 9 5 7 64 none 1
replay|X|--rules|R => replay X R 2000 5 10 64 none 1
replay|X|--rules=R => replay X R 2000 5 10 64 none 1
replay|--rules=-x|X => replay X -x 2000 5 10 64 none 1
replay|X|--interval-s|1 => replay X none 2000 1 10 64 none 1
replay|--interval-s=3600|X => replay X none 2000 3600 10 64 none 1
replay|--|- => replay - none 2000 5 10 64 none 1
replay|été/1 => replay été/1 none 2000 5 10 64 none 1
replay|X|--workers=2 => replay X none 2000 5 10 2 none 1
replay|--workers|1|X => replay X none 2000 5 10 1 none 1
replay|X|--workers|64|--tick-ms=9 => replay X none 9 5 10 64 none 1
replay|X|--live|/ => replay X none 2000 5 10 64 / 1
replay|--live=/a|X => replay X none 2000 5 10 64 /a 1
replay|X|--live=/a/b|--live-count|16 => replay X none 2000 5 10 64 /a/b 16
replay|--live-count=2|X|--live|/a.b/c-d => replay X none 2000 5 10 64 /a.b/c-d 2
replay|--live-count|1|--live|/|--|X => replay X none 2000 5 10 64 / 1
replay|X|--live-count|3 => replay X none 2000 5 10 64 none 3
replay|--live-count=16|X => replay X none 2000 5 10 64 none 16
replay|--live|/a|--rules|R|--live-count|4|X|--interval-s=6|--workers=2|--report-s=7|--tick-ms=9 => replay X R 9 6 7 2 /a 4
replay|--tick-ms=9|--report-s=7|X|--workers=2|--live-count=4|--interval-s|6|--rules=R|--live=/a => replay X R 9 6 7 2 /a 4
gen|--seed=0|--cpus=1|--groups=1|--events=1 => gen 0 1 1 1
gen|--seed|7|--cpus|8|--groups|12|--events|200000 => gen 7 8 12 200000
gen|--events=0|--groups=0|--cpus=1|--seed=0 => gen 0 1 0 0
gen|--seed=18446744073709551615|--cpus=64|--groups=1000|--events=3900000|-- => gen 18446744073709551615 64 1000 3900000
stress|--seed=0|--cpus=1|--groups=1|--events=1 => stress 0 1 1 1 64
stress|--seed=0|--cpus=1|--groups=1|--events=1|--workers=2 => stress 0 1 1 1 2
stress|--workers|1|--seed|7|--cpus|8|--groups|12|--events|9 => stress 7 8 12 9 1
import|X|--cpus=1 => import X 1
import|--cpus|64|X => import X 64
import|-|--cpus|4 => import - 4
import|--cpus=2|--|--cpus => import --cpus 2
rules|X => rules X
rules|- => rules -
rules|rules => rules rules
rules|X|--drop-in|Y => rules X+Y
rules|--drop-in=Y|- => rules -+Y
rules|--drop-in|X|X => rules X+X
rules|--drop-in=a=b|--|--drop-in => rules --drop-in+a=b
replay|X|--rules|R|--drop-in|D => replay X R+D 2000 5 10 64 none 1
replay|--drop-in=D|X|--rules=R => replay X R+D 2000 5 10 64 none 1
replay|X|--rules|R|--drop-in|R|--tick-ms|5 => replay X R+R 5 5 10 64 none 1";

/// Words that aren't a command. The first row has no words.
pub const REFUSED: &str = "(none)

|X
help
--help
-h
--version
-V
--
-
X
STALL|X
Stall|X
stal|X
stalls|X
--|stall|X
-x|stall|X
stall
stall|
stall|--
stall|--|
stall|X|Y
stall|X|--|Y
stall|--|X|Y
stall|--|X|--
stall|X|
stall|-x
stall|-é
stall|---
stall|--=
stall|--help
stall|-h
stall|--version
stall|X|--tick-ms|5
stall|X|--tick-ms=5
stall|--tick-ms=5|X
check
check|--tick-ms|5
check|X|Y
check|X|--report-s=5
check|X|--tick-ms
check|X|--tick-ms=
check|X|--tick-ms|
check|X|--tick-ms=0
check|X|--tick-ms=60001
check|X|--tick-ms=+5
check|X|--tick-ms=-5
check|X|--tick-ms=5s
check|X|--tick-ms= 5
check|X|--tick-ms==5
check|X|--tick-ms=é
check|X|--tick-ms=5|--tick-ms=5
check|X|--tick-ms|18446744073709551616
replay
replay|
replay|--|
replay|X|Y
replay|X|help|--tick-ms=5
replay|X|--tick-ms|0
replay|X|--tick-ms|02
replay|X|--tick-ms|-
replay|X|--tick-ms|-5
replay|X|--tick-ms|--
replay|X|--tick-ms|--|5
replay|--tick-ms|--|X
replay|--tick-ms|5
replay|--tick-ms|X
replay|--|--tick-ms|5
replay|X|--tick-ms|5|--tick-ms|5
replay|X|--tick-ms=5|--tick-ms|6
replay|X|--tick-ms|--report-s|5
replay|X|--report-s=3601
replay|X|--report-s=
replay|X|--report-s=1|--report-s=1
replay|X|--tick=5
replay|X|--tick-m|5
replay|X|--tick-msx=5
replay|X|--TICK-MS|5
replay|X|--Tick-Ms=5
replay|X|-tick-ms|5
replay|X|-q
replay|X|-t5
replay|X|--=5
replay|X|--help
replay|X|--version
replay|X|-h
replay|X|--rules|-
replay|X|--rules=-
replay|X|--rules=
replay|X|--rules|
replay|X|--rules
replay|X|--rules|R|--rules|R
replay|X|--interval-s=0
replay|X|--interval-s|3601
replay|X|--interval-s|05
stall|X|--rules|R
check|X|--interval-s|5
replay|X|--workers=0
replay|X|--workers=65
replay|X|--workers=02
replay|X|--workers|-1
replay|X|--workers
replay|X|--workers=2|--workers=2
replay|X|--worker=2
stall|X|--workers=2
check|X|--workers=2
replay|--live|/
replay|X|--live
replay|X|--live|a
replay|X|--live=a/b
replay|X|--live|/a/
replay|X|--live|//
replay|X|--live=/a/../b
replay|X|--live=/a b
replay|X|--live|
replay|X|--live=
replay|X|--live|-
replay|X|--live|--|/
replay|X|--live|/|--live|/
replay|X|--live=/a|--live=/b
replay|X|--live|/|--live-count
replay|X|--live|/|--live-count|
replay|X|--live|/|--live-count|0
replay|X|--live|/|--live-count=17
replay|X|--live|/|--live-count|01
replay|X|--live|/|--live-count=-1
replay|X|--live-count=0
replay|X|--live-count|17
replay|X|--live-count=01
replay|X|--live-count=1|--live-count=1
replay|X|--live-counts=1
replay|X|--lives=/
replay|X|--liv=/
stall|X|--live|/
stall|X|--live-count=1
check|X|--live|/
check|X|--live-count|1
replay|X|--drop-in|F
gen
gen|X
gen|--cpus=1|--groups=1|--events=1
gen|--seed=0|--groups=1|--events=1
gen|--seed=0|--cpus=1|--events=1
gen|--seed=0|--cpus=1|--groups=1
gen|--seed=18446744073709551616|--cpus=1|--groups=1|--events=1
gen|--seed=-1|--cpus=1|--groups=1|--events=1
gen|--seed=0|--cpus=0|--groups=1|--events=1
gen|--seed=0|--cpus=65|--groups=1|--events=1
gen|--seed=0|--cpus=1|--groups=1001|--events=1
gen|--seed=0|--cpus=1|--groups=1|--events=3900001
gen|--seed=0|--cpus=1|--groups=1|--events=
gen|--seed=0|--cpus=1|--groups=1|--events=1|X
gen|--seed=0|--cpus=1|--groups=1|--events=1|-
gen|--seed=0|--cpus=1|--groups=1|--events=1|--seed=0
gen|--seed=0|--cpus=1|--groups=1|--events=1|--workers=2
gen|--seed=0|--cpus=1|--groups=1|--events=1|--tick-ms=5
gen|--seed=0|--cpus=1|--groups=1|--events=1|--live|/
gen|--seed=0|--cpus=1|--groups=1|--events=1|--live-count=1
stress
stress|X
stress|--cpus=1|--groups=1|--events=1|--workers=2
stress|--seed=0|--cpus=1|--groups=1|--events=1|--workers=0
stress|--seed=0|--cpus=1|--groups=1|--events=1|--workers=65
stress|--seed=0|--cpus=1|--groups=1|--events=1|--report-s=5
stress|--seed=0|--cpus=1|--groups=1|--events=1|--live|/
stress|--seed=0|--cpus=1|--groups=1|--events=1|--live-count=1
stress|--seed=0|--cpus=1|--groups=1|--events=1|--|X
import
import|X
import|--cpus=1
import||--cpus=1
import|X|Y|--cpus=1
import|X|--cpus
import|X|--cpus=
import|X|--cpus=0
import|X|--cpus=65
import|X|--cpus=01
import|X|--cpus=+1
import|X|--cpus=1|--cpus=1
import|X|--cpus=1|--tick-ms=5
import|X|--cpus=1|--workers=2
Import|X|--cpus=1
rules
rules|
rules|X|Y
rules|X|--drop-in
rules|X|--drop-in=
rules|X|--drop-in|-
rules|X|--drop-in=-
rules|-|--drop-in=-
rules|X|--drop-in|--drop-in
rules|X|--drop-in=Y|--drop-in=Y
rules|--drop-in=Y
rules|X|--rules=Y
rules|X|--tick-ms=5
rules|X|--dropin=Y
Rules|X
replay|X|--drop-in=D
replay|X|--drop-in|D|--tick-ms|5
replay|X|--rules=R|--drop-in=
replay|X|--rules=R|--drop-in=-
replay|X|--rules=R|--drop-in
replay|X|--rules=R|--drop-in=D|--drop-in=D
replay|X|--rules=-|--drop-in=D
stall|X|--drop-in=D
check|X|--drop-in=D
whatif
whatif|X
whatif|--rules|R
whatif|X|--rules|-
whatif|X|--rules=
whatif|X|--drop-in=D
whatif|X|--rules=R|--live=/
whatif|X|--rules=R|--live-count=2
whatif|X|--rules=R|--tick-ms=0
whatif|X|--rules=R|--workers=65
whatif|X|--rules=R|--rules=R
whatif|X|Y|--rules=R
Whatif|X|--rules=R
whatifs|X|--rules=R";
