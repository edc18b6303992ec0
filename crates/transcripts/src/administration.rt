//! Transcripts of deposits and administration.

/// Deposits, and the maildrop's totals and scan listing between them.
pub const DEPOSITS: &str = r"> maildrops
answer
> maildrop add orders
answer added
> maildrop add orders
answer was there
> list orders
answer
> deposit orders note d1 Subject: a\n\nhi\n.\n
answer new note.1
> deposit orders note d1 Subject: a\n\nhi\n.\n
answer known note.1
> deposit orders pay d1 Subject: a\n\nhi\n.\n
answer conflict
> deposit orders note d2 
answer empty text
> deposit nowhere note d1 x
answer no such maildrop
> maildrops
answer orders 1 21
> list orders
answer note.1 21
> list nowhere
answer no such maildrop
> maildrop drop orders
answer not empty
> deposit orders note D_3 a\x00\\
answer new note.2
> list orders
answer note.1 21
answer note.2 5
> maildrops
answer orders 2 26
";

/// A maildrop is dropped and added again: it is empty.
pub const DROPPED: &str = r"> maildrop add orders
answer added
> maildrop add billing
answer added
> maildrop drop orders
answer dropped
> maildrop drop orders
answer no such maildrop
> maildrops
answer billing 0 0
> deposit orders note d1 x
answer no such maildrop
> maildrop add orders
answer added
> deposit orders note d1 x
answer new note.1
> maildrops
answer billing 0 0
answer orders 1 3
";

/// A clerk comes, gets another credential, and goes.
pub const CLERKS: &str = r"> clerk show ann
answer no such clerk
> clerk pass ann s3 cret
answer added
> clerk show ann
answer pass
> clerk apop ann tanstaaf
answer replaced
> clerk show ann
answer apop
> clerk drop ann
answer dropped
> clerk drop ann
answer no such clerk
> clerk show ann
answer no such clerk
> explain ann orders note open
answer deny by rule default
";

/// Each clerk with the kind of the credential, by name.
pub const LISTED: &str = r"> clerks
answer
> clerk pass bob s3 cret
answer added
> clerk apop ann tanstaaf
answer added
> clerks
answer ann apop
answer bob pass
> clerk drop ann
answer dropped
> clerks
answer bob pass
";

/// A policy with a fault leaves the one in force.
pub const POLICIES: &str = r#"> policy
answer
> policy [[rule]]\nname = "all"\neffect = "allow"\nclerk = "*"\nmaildrop = "*"\nclass = "*"\nactions = ["open", "read", "remove"]\n
answer 1 rules
> policy
answer [[rule]]
answer name = "all"
answer effect = "allow"
answer clerk = "*"
answer maildrop = "*"
answer class = "*"
answer actions = ["open", "read", "remove"]
> explain ann orders note open
answer allow by rule all
> policy [[rule]]\nname = "all"\neffect = "allow"\nclerk = "*"\nmaildrop = "*"\nclass = "*"\nactions = ["open", "read", "remove"]\n[[rule]]\nname = "all"\neffect = "allow"\nclerk = "*"\nmaildrop = "*"\nclass = "*"\nactions = ["open", "read", "remove"]\n
answer rule 2: DoubleName
> policy \xff
answer NotToml
> explain ann orders note open
answer allow by rule all
> policy 
answer 0 rules
> policy
answer
> explain ann orders note open
answer deny by rule default
"#;

/// An unknown clerk, a wrong and a right password, and a password of a clerk who logs in by APOP.
pub const CREDENTIALS: &str = r"> clerk pass ann s3 cret
answer added
> clerk apop mrose tanstaaf
answer added
> connect
opened 1
> drain 1
sent 1 +OK POP3 server ready <1.7@h.test>\r\n
done
C: USER zoe/orders
S: +OK send PASS
C: PASS x
S: -ERR login failed
C: USER ann/orders
S: +OK send PASS
C: PASS s3 cret 
S: -ERR login failed
C: USER ann/orders
S: +OK send PASS
C: PASS s3 cret
S: -ERR denied by rule default
C: USER mrose/orders
S: +OK send PASS
C: PASS tanstaaf
S: -ERR login failed, closing
ended 1
";

/// A maildrop, two clerks, and a policy that lets mrose open any maildrop.
pub const OPENING: &str = r#"> maildrop add orders
answer added
> clerk apop mrose tanstaaf
answer added
> clerk pass ann tanstaaf
answer added
> policy [[rule]]\nname = "mrose-open"\neffect = "allow"\nclerk = "mrose"\nmaildrop = "*"\nclass = "*"\nactions = ["open"]
answer 1 rules
"#;

/// APOP with the RFC's digest in lower case: refused for another clerk; refused with the last digit
/// changed; accepted.
pub const LOWER_CASE: &str = r"> connect
opened 1896
> drain 1896
sent 1896 +OK POP3 server ready <1896.697170952@dbc.mtview.ca.us>\r\n
done
> bytes 1896 APOP ann/orders c4c9334bac560ecc979e58001b3e22fb\r\n
done
> drain 1896
sent 1896 -ERR login failed\r\n
done
> bytes 1896 APOP mrose/orders c4c9334bac560ecc979e58001b3e22fc\r\n
done
> drain 1896
sent 1896 -ERR login failed\r\n
done
> bytes 1896 APOP mrose/orders c4c9334bac560ecc979e58001b3e22fb\r\n
done
> drain 1896
sent 1896 +OK maildrop has 0 messages (0 octets)\r\n
done
> bytes 1896 QUIT\r\n
done
> drain 1896
sent 1896 +OK bye\r\n
done
ended 1896
";

/// APOP with the same digest in upper case is accepted.
pub const UPPER_CASE: &str = r"> connect
opened 1896
> drain 1896
sent 1896 +OK POP3 server ready <1896.697170952@dbc.mtview.ca.us>\r\n
done
> bytes 1896 APOP mrose/orders C4C9334BAC560ECC979E58001B3E22FB\r\n
done
> drain 1896
sent 1896 +OK maildrop has 0 messages (0 octets)\r\n
done
> bytes 1896 QUIT\r\n
done
> drain 1896
sent 1896 +OK bye\r\n
done
ended 1896
";
