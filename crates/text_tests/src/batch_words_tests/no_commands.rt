//! Words that spell no command: a line of text for each, with a bar between two words.

// Own, by hand, from the rules of the command grammar.
pub static NO_COMMANDS: [&str; 10] = [
    // another command
    "\
Run
runs
ru
--workers|4
--workers=4|run
help
lives
capsule
",
    // other workers
    "\
run|--workers|0
run|--workers|17
run|--workers|04
run|--workers|+4
run|--workers|-4
run|--workers|-
run|--workers|4.0
run|--workers|0x4
run|--workers|160
run|--workers|4294967300
run|--workers|18446744073709551620
run|--workers|four
run|--workers|plain
run|--workers|٤
run|--workers|
run|--workers=
run|--workers=0
run|--workers==4
live|--workers|17
",
    // another multiplier
    "\
run|--mult|fast
run|--mult|Plain
run|--mult|karatsub
run|--mult|
run|--mult=
run|--mult=-
run|--mult|4
live|--mult|fast
",
    // another option
    "\
run|--worker|4
run|--Workers|4
run|--mul|plain
run|-w|4
run|-w4
run|-workers|4
run|--schedule|0
run|--help
run|-h
run|--version
run|-V
",
    // a missing or further word, a repeated option
    "\
run|4
run|run
run|rehearse|-
run|--workers
run|--mult
run|--mult|plain|--workers
run|--mult|--workers|4
run|--workers|4|5
run|--workers|4|--workers|5
run|--workers=4|--workers=4
run|--workers|--workers=4
run|--mult=plain|--mult|plain
run|--mult|plain|--workers=4|--mult=lanes
live|run
live|-
live|--workers=4|--workers=4
",
    // another schedule
    "\
rehearse
rehearse|
rehearse|16
rehearse|00
rehearse|0,
rehearse|,0
rehearse|,
rehearse|0,,1
rehearse|0, 1
rehearse|0,-
rehearse|-,-
rehearse|-0
rehearse|0|1
rehearse|-|-
rehearse|--schedule|0
rehearse|--help
",
    // another demonstration
    "\
demo
demo|7
demo|7|1
demo|7|1|1|1
demo|7|0|1
demo|7|65537|1
demo|7|1|0
demo|7|1|17
demo|18446744073709551616|1|1
demo|07|1|1
demo|7|01|1
demo|7|1|01
demo|-7|1|1
demo||1|1
demo|seed|1|1
demo|--seed|7|1|1
demo|7|1|1|--workers|4
demo|--help
",
    // other words after `check` and `capsules`
    "\
check|--workers|4
check|--mult
check|--mult|fast
check|--mult|plain|--mult|plain
check|plain
check|--help
check|--live|--live
check|--live|--mult
check|--mult|--live
check|--mult|--live|plain
check|--live=1
check|live
capsules|--live
run|--live
capsules|--workers|4
capsules|--mult
capsules|--mult|fast
capsules|--mult|plain|--workers|4
capsules|lanes
",
    // a word `--`, which `clap` alone would take
    "\
--|run
run|--
run|--workers|--|4
run|--workers=4|--
run|--|--workers|4
run|--mult|plain|--
live|--
rehearse|--
rehearse|--|0
rehearse|0|--
demo|--|7|1|1
check|--
capsules|--mult|plain|--
",
    // a space before or behind a word, and an empty one
    "run|--workers|4 \nrun|--mult|plain \n\n run\n",
];
