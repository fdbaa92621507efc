//! Which words are which command.
use std::alloc::{AllocError, Global};
use std::test::Fail;
use wt_words::read_words;

/// Words with blanks between them, and what they are.
static WORDS: [(&str, &str); 32] = [
    ("", "NoCommand"),
    ("find", "UnknownCommand"),
    (
        "discover src=2 dst=1 ops=D",
        "Discover { bounds: Bounds { src: 2, dst: 1, ops: Ops(32), depth: 64, steps: 8 }, workers: 4 }",
    ),
    (
        "discover workers=64 ops=DSLIFP steps=16 depth=0 dst=0 src=4",
        "Discover { bounds: Bounds { src: 4, dst: 0, ops: Ops(63), depth: 0, steps: 16 }, workers: 64 }",
    ),
    ("discover", "MissingKey"),
    ("discover src=2 ops=D", "MissingKey"),
    ("discover src=5 dst=1 ops=D", "OutOfRange"),
    ("discover src=0 dst=1 ops=D", "OutOfRange"),
    ("discover src=2 dst=5 ops=D", "OutOfRange"),
    ("discover depth=65", "OutOfRange"),
    ("discover steps=0", "OutOfRange"),
    ("discover steps=17", "OutOfRange"),
    ("discover workers=0", "OutOfRange"),
    ("discover workers=65", "OutOfRange"),
    ("discover src=00000000002", "BadNumber"),
    ("discover src=20000000000", "OutOfRange"),
    ("discover src=02", "BadNumber"),
    ("discover src=", "BadNumber"),
    ("discover src=+2", "BadNumber"),
    ("discover src=2 dst=1 ops=DD", "BadOps"),
    ("discover ops=", "BadOps"),
    ("discover ops=d", "BadOps"),
    ("discover src=2 src=2", "RepeatedKey"),
    ("discover src", "UnknownKey"),
    ("discover size=2", "UnknownKey"),
    ("check R", "Check { rules: \"R\" }"),
    ("check", "WordCount"),
    (
        "rewrite R S Q",
        "Rewrite { rules: \"R\", schema: \"S\", queries: \"Q\" }",
    ),
    ("rewrite R S", "WordCount"),
    ("demo 0 100000", "Demo { first: 0, count: 100000 }"),
    ("demo 0", "WordCount"),
    ("demo 1000000 x", "OutOfRange"),
];

fn are(alloc: Global, text: &str, expected: &str) -> Result<bool, AllocError> {
    let mut words = Vec::new(alloc);
    for word in text.split_whitespace() {
        words.push(String::from_str(alloc, word)?)?;
    }
    let found = match read_words(&words) {
        Ok(command) => format!(in alloc; "{command:?}")?,
        Err(fault) => format!(in alloc; "{fault}")?,
    };
    Ok(found.as_str() == expected)
}

#[test]
fn words_are_commands_or_refused(rt: HostRuntime) -> Result<(), Fail> {
    for (text, expected) in &WORDS {
        assert!(rt; are(rt.alloc(), text, expected)?, "{text}");
    }
    Ok(())
}
