//! The statements that make stores of versions 1 and 2, which are carried over as they are opened.

use std::alloc::{AllocError, Global};

/// The tables that both older versions make before that of the messages.
static FRONT: &str = "CREATE TABLE meta (name TEXT PRIMARY KEY, value INTEGER NOT NULL) STRICT;
CREATE TABLE clerks (name TEXT PRIMARY KEY, kind INTEGER NOT NULL, secret BLOB NOT NULL) STRICT;
CREATE TABLE maildrops (name TEXT PRIMARY KEY) STRICT;
CREATE TABLE counts (maildrop TEXT, class TEXT, k INTEGER NOT NULL,
    PRIMARY KEY (maildrop, class)) STRICT;
CREATE TABLE deposits (maildrop TEXT, id TEXT, class TEXT NOT NULL, k INTEGER NOT NULL,
    digest BLOB NOT NULL, PRIMARY KEY (maildrop, id)) STRICT;
";

/// The messages of version 1, each with its text in one column.
static MESSAGES: &str = "CREATE TABLE messages (key INTEGER PRIMARY KEY AUTOINCREMENT,
    maildrop TEXT NOT NULL REFERENCES maildrops, class TEXT NOT NULL, k INTEGER NOT NULL,
    octets INTEGER NOT NULL, body BLOB NOT NULL, UNIQUE (maildrop, class, k)) STRICT;
";

/// The messages of version 2, without their texts.
static MAIL: &str = "CREATE TABLE mail (key INTEGER PRIMARY KEY AUTOINCREMENT,
    maildrop TEXT NOT NULL REFERENCES maildrops, class TEXT NOT NULL, k INTEGER NOT NULL,
    octets INTEGER NOT NULL, UNIQUE (maildrop, class, k)) STRICT;
";

static RULES: &str = "CREATE TABLE rules (place INTEGER PRIMARY KEY, name TEXT NOT NULL UNIQUE,
    effect INTEGER NOT NULL, clerk TEXT NOT NULL, maildrop TEXT NOT NULL, class TEXT NOT NULL,
    actions INTEGER NOT NULL) STRICT;
";

/// The texts of version 2.
static SHEETS: &str =
    "CREATE TABLE sheets (mail INTEGER REFERENCES mail ON DELETE CASCADE, place INTEGER,
    octets BLOB NOT NULL, PRIMARY KEY (mail, place)) STRICT;
";

/// The sample store's clerks, with digests by SHA-256 of `NAME:PASSWORD`; its rules; and its
/// deposits, with digests by SHA-256 of their texts.
static ROWS: &str = "INSERT INTO clerks (name, kind, secret) VALUES
    ('ann', 2, x'b43a467a63f3c6f08cee5d5081ae0b9de24ab8663cdca739aa854abb29861820'),
    ('bob', 2, x'5d66dff90fab059f8007035beb841c60b3e67cfdd7a1e38528e295ee89d26aa6'),
    ('cat', 2, x'7a04d0050845a65716591f5d50e0e61f7d663805fb3ed8ecee643b5c91f49c39'),
    ('dan', 2, x'1c88ee6d4950a9223ce454193c24ca4043d3faa1e4cf88f6701fb37f2703baf9'),
    ('eve', 2, x'2c374d18395a5bb1183a5b10d747f01664768a3d0f593857d14dabfea043d670'),
    ('mrose', 1, x'74616e7374616166');
INSERT INTO maildrops (name) VALUES ('orders');
INSERT INTO counts (maildrop, class, k) VALUES
    ('orders', 'note', 2), ('orders', 'pay', 1), ('orders', 'todo', 1);
INSERT INTO deposits (maildrop, id, class, k, digest) VALUES
    ('orders', 'd1', 'note', 1,
        x'7e26da887e311a7cec49a0c5726a1ced23c01c411cb5b2d1f6386f1be3f802b3'),
    ('orders', 'd2', 'pay', 1,
        x'a2a88d37189ac34218be71067b6b4c887a96ff63e9e3fe54b63801c63c673497'),
    ('orders', 'd3', 'note', 2,
        x'716e99a163873337d384d59cf16bf5961e004b7adf3e3c8ca3f9cabf7a017542'),
    ('orders', 'd4', 'todo', 1,
        x'96230f340ed44ca48b5f8dfbcc9570dad7fa8576252978613e29d51a2bbdd85b');
INSERT INTO rules (name, effect, clerk, maildrop, class, actions) VALUES
    ('ann-all', 1, 'ann', 'orders', '*', 7), ('bob-open', 1, 'bob', 'orders', '*', 1),
    ('bob-no-pay', 0, 'bob', 'orders', 'pay', 6), ('bob-read', 1, 'bob', 'orders', '*', 2),
    ('bob-rm', 1, 'bob', 'orders', 'note', 4), ('cat-open', 1, 'cat', 'orders', '*', 1),
    ('eve-any', 1, 'eve', '*', '*', 1), ('mrose-open', 1, 'mrose', '*', '*', 1);
";

/// The sample store's first three messages, in version 1.
static FIRST_ROWS: &str = "INSERT INTO messages (key, maildrop, class, k, octets, body) VALUES
    (1, 'orders', 'note', 1, 21, x'5375626a6563743a20610d0a0d0a68690d0a2e0d0a'),
    (2, 'orders', 'pay', 1, 19, x'5375626a6563743a207061790d0a0d0a780d0a'),
    (3, 'orders', 'note', 2, 15, x'6e6f2068656164657220656e640d0a');
INSERT INTO meta (name, value) VALUES ('popbox', 1);
";

/// The sample store's first three messages, in version 2.
static SECOND_ROWS: &str = "INSERT INTO mail (key, maildrop, class, k, octets) VALUES
    (1, 'orders', 'note', 1, 21), (2, 'orders', 'pay', 1, 19), (3, 'orders', 'note', 2, 15);
INSERT INTO sheets (mail, place, octets) VALUES
    (1, 0, x'5375626a6563743a20610d0a0d0a68690d0a2e0d0a'),
    (2, 0, x'5375626a6563743a207061790d0a0d0a780d0a'),
    (3, 0, x'6e6f2068656164657220656e640d0a');
INSERT INTO meta (name, value) VALUES ('popbox', 2);
";

/// The statements that make the sample store in version 1, without its fourth message.
pub fn first_text(alloc: Global) -> Result<String, AllocError> {
    format!(in alloc; "{FRONT}{MESSAGES}{RULES}{ROWS}{FIRST_ROWS}")
}

/// The same in version 2.
pub fn second_text(alloc: Global) -> Result<String, AllocError> {
    format!(in alloc; "{FRONT}{MAIL}{RULES}{SHEETS}{ROWS}{SECOND_ROWS}")
}
