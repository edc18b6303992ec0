//! Transcripts of sessions over the sample store (RFC 1939, 5 to 7).

/// The sample store, as a transcript.
pub const SAMPLE: &str = r#"> maildrop add orders
answer added
> clerk pass ann s3 cret
answer added
> clerk pass bob hunter
answer added
> clerk pass cat meow
answer added
> clerk pass dan pw
answer added
> clerk pass eve any one
answer added
> clerk apop mrose tanstaaf
answer added
> policy [[rule]]\nname = "ann-all"\neffect = "allow"\nclerk = "ann"\nmaildrop = "orders"\nclass = "*"\nactions = ["open", "read", "remove"]\n[[rule]]\nname = "bob-open"\neffect = "allow"\nclerk = "bob"\nmaildrop = "orders"\nclass = "*"\nactions = ["open"]\n[[rule]]\nname = "bob-no-pay"\neffect = "deny"\nclerk = "bob"\nmaildrop = "orders"\nclass = "pay"\nactions = ["read", "remove"]\n[[rule]]\nname = "bob-read"\neffect = "allow"\nclerk = "bob"\nmaildrop = "orders"\nclass = "*"\nactions = ["read"]\n[[rule]]\nname = "bob-rm"\neffect = "allow"\nclerk = "bob"\nmaildrop = "orders"\nclass = "note"\nactions = ["remove"]\n[[rule]]\nname = "cat-open"\neffect = "allow"\nclerk = "cat"\nmaildrop = "orders"\nclass = "*"\nactions = ["open"]\n[[rule]]\nname = "eve-any"\neffect = "allow"\nclerk = "eve"\nmaildrop = "*"\nclass = "*"\nactions = ["open"]\n[[rule]]\nname = "mrose-open"\neffect = "allow"\nclerk = "mrose"\nmaildrop = "*"\nclass = "*"\nactions = ["open"]\n
answer 8 rules
> deposit orders note d1 Subject: a\n\nhi\n.\n
answer new note.1
> deposit orders pay d2 Subject: pay\n\nx\n
answer new pay.1
> deposit orders note d3 no header end
answer new note.2
> deposit orders todo d4 A: 1\r\n\r\none\r\ntwo\r\nthree\r\n
answer new todo.1
"#;

/// RETR sends a message whole, with one more dot before a line that begins with one.
pub const RETRIEVING: &str = r"> connect
opened 1
> drain 1
sent 1 +OK POP3 server ready <1.7@h.test>\r\n
done
C: USER ann/orders
S: +OK send PASS
C: CAPA
S: +OK capability list follows\r\nTOP\r\nUSER\r\nUIDL\r\nRESP-CODES\r\nPIPELINING\r\n.
C: PASS s3 cret
S: +OK maildrop has 4 messages (80 octets)
C: NOOP
S: +OK
C: RETR 1
S: +OK 21 octets\r\nSubject: a\r\n\r\nhi\r\n..\r\n.
C: retr 01 
S: +OK 21 octets\r\nSubject: a\r\n\r\nhi\r\n..\r\n.
";

/// TOP sends a text without an empty line whole.
pub const TOP_WITHOUT_HEADER_END: &str = r"> connect
opened 1
> drain 1
sent 1 +OK POP3 server ready <1.7@h.test>\r\n
done
C: USER ann/orders
S: +OK send PASS
C: CAPA
S: +OK capability list follows\r\nTOP\r\nUSER\r\nUIDL\r\nRESP-CODES\r\nPIPELINING\r\n.
C: PASS s3 cret
S: +OK maildrop has 4 messages (80 octets)
C: TOP 3 0
S: +OK top follows\r\nno header end\r\n.
";

/// TOP sends the header, the empty line and some of the lines after it.
pub const TOP_LINES: &str = r"> connect
opened 1
> drain 1
sent 1 +OK POP3 server ready <1.7@h.test>\r\n
done
C: USER ann/orders
S: +OK send PASS
C: CAPA
S: +OK capability list follows\r\nTOP\r\nUSER\r\nUIDL\r\nRESP-CODES\r\nPIPELINING\r\n.
C: PASS s3 cret
S: +OK maildrop has 4 messages (80 octets)
C: TOP 4 0
S: +OK top follows\r\nA: 1\r\n\r\n.
C: TOP 4 1
S: +OK top follows\r\nA: 1\r\n\r\none\r\n.
C: TOP 4 3
S: +OK top follows\r\nA: 1\r\n\r\none\r\ntwo\r\nthree\r\n.
C: TOP 4 18446744073709551616
S: +OK top follows\r\nA: 1\r\n\r\none\r\ntwo\r\nthree\r\n.
";

/// Arguments that don't fit, an empty line, and a command that belongs before a login.
pub const ARGUMENTS: &str = r"> connect
opened 1
> drain 1
sent 1 +OK POP3 server ready <1.7@h.test>\r\n
done
C: USER ann/orders
S: +OK send PASS
C: CAPA
S: +OK capability list follows\r\nTOP\r\nUSER\r\nUIDL\r\nRESP-CODES\r\nPIPELINING\r\n.
C: PASS s3 cret
S: +OK maildrop has 4 messages (80 octets)
C: RETR
S: -ERR bad arguments
C: RETR x
S: -ERR bad arguments
C: RETR 1 2
S: -ERR bad arguments
C: RETR  1
S: -ERR bad arguments
C: 
S: -ERR unknown command
C: USER bob/orders
S: -ERR wrong state
";

/// Marks are set, seen and taken away, and a QUIT removes what is marked.
pub const MARKING: &str = r"> connect
opened 1
> drain 1
sent 1 +OK POP3 server ready <1.7@h.test>\r\n
done
C: USER ann/orders
S: +OK send PASS
C: PASS s3 cret
S: +OK maildrop has 4 messages (80 octets)
C: DELE 1
S: +OK message 1 deleted
C: DELE 1
S: -ERR message 1 is deleted
C: RETR 1
S: -ERR message 1 is deleted
C: LIST 1
S: -ERR message 1 is deleted
C: STAT
S: +OK 3 59
C: RSET
S: +OK maildrop has 4 messages (80 octets)
C: RETR 1
S: +OK 21 octets\r\nSubject: a\r\n\r\nhi\r\n..\r\n.
C: DELE 2
S: +OK message 2 deleted
C: LIST
S: +OK scan listing follows\r\n1 21\r\n3 15\r\n4 25\r\n.
C: QUIT
S: +OK bye
ended 1
> list orders
answer note.1 21
answer note.2 15
answer todo.1 25
";

/// A clerk who may read nothing.
pub const EMPTY_VIEW: &str = r"> connect
opened 1
> drain 1
sent 1 +OK POP3 server ready <1.7@h.test>\r\n
done
C: USER cat/orders
S: +OK send PASS
C: PASS meow
S: +OK maildrop has 0 messages (0 octets)
C: STAT
S: +OK 0 0
C: LIST
S: +OK scan listing follows\r\n.
C: UIDL
S: +OK unique-id listing follows\r\n.
C: RETR 1
S: -ERR no such message
C: LIST 0
S: -ERR no such message
C: QUIT
S: +OK bye
ended 1
";

/// Logins while another session holds the maildrop, and a try to drop that maildrop.
pub const REFUSALS: &str = r"> connect
opened 1
> drain 1
sent 1 +OK POP3 server ready <1.7@h.test>\r\n
done
C: USER ann/orders
S: +OK send PASS
C: CAPA
S: +OK capability list follows\r\nTOP\r\nUSER\r\nUIDL\r\nRESP-CODES\r\nPIPELINING\r\n.
C: PASS s3 cret
S: +OK maildrop has 4 messages (80 octets)
> connect
opened 2
> drain 2
sent 2 +OK POP3 server ready <2.7@h.test>\r\n
done
> bytes 2 USER bob/orders\r\n
done
> drain 2
sent 2 +OK send PASS\r\n
done
> bytes 2 PASS hunter\r\n
done
> drain 2
sent 2 -ERR [IN-USE] maildrop is in use\r\n
done
> bytes 2 USER dan/orders\r\n
done
> drain 2
sent 2 +OK send PASS\r\n
done
> bytes 2 PASS pw\r\n
done
> drain 2
sent 2 -ERR denied by rule default\r\n
done
> bytes 2 USER eve/nowhere\r\n
done
> drain 2
sent 2 +OK send PASS\r\n
done
> bytes 2 PASS any one\r\n
done
> drain 2
sent 2 -ERR no such maildrop\r\n
done
> maildrop drop orders
answer in use
";

/// A clerk who may read some of the messages. A message that came since the login is seen by the
/// next one.
pub const FILTERED_VIEW: &str = r"> connect
opened 1
> drain 1
sent 1 +OK POP3 server ready <1.7@h.test>\r\n
done
C: USER bob/orders
S: +OK send PASS
C: PASS hunter
S: +OK maildrop has 3 messages (61 octets)
C: STAT
S: +OK 3 61
C: LIST
S: +OK scan listing follows\r\n1 21\r\n2 15\r\n3 25\r\n.
C: UIDL
S: +OK unique-id listing follows\r\n1 note.1\r\n2 note.2\r\n3 todo.1\r\n.
C: UIDL 2
S: +OK 2 note.2
C: DELE 3
S: -ERR denied by rule default
C: DELE 2
S: +OK message 2 deleted
C: RSET
S: +OK maildrop has 3 messages (61 octets)
> deposit orders note d5 x\n
answer new note.3
C: STAT
S: +OK 3 61
C: QUIT
S: +OK bye
ended 1
> connect
opened 2
> drain 2
sent 2 +OK POP3 server ready <2.7@h.test>\r\n
done
> bytes 2 USER bob/orders\r\n
done
> drain 2
sent 2 +OK send PASS\r\n
done
> bytes 2 PASS hunter\r\n
done
> drain 2
sent 2 +OK maildrop has 4 messages (64 octets)\r\n
done
";

/// Two messages are marked. The policy in force at the QUIT denies the removal of one of them, by a
/// rule about the class `pay` that stands in front of ann's.
pub const QUITTING: &str = r#"> connect
opened 1
> drain 1
sent 1 +OK POP3 server ready <1.7@h.test>\r\n
done
C: USER ann/orders
S: +OK send PASS
C: PASS s3 cret
S: +OK maildrop has 4 messages (80 octets)
C: DELE 1
S: +OK message 1 deleted
C: DELE 2
S: +OK message 2 deleted
> policy [[rule]]\nname = "freeze-pay"\neffect = "deny"\nclerk = "*"\nmaildrop = "orders"\nclass = "pay"\nactions = ["remove"]\n[[rule]]\nname = "ann-all"\neffect = "allow"\nclerk = "ann"\nmaildrop = "orders"\nclass = "*"\nactions = ["open", "read", "remove"]\n
answer 2 rules
C: QUIT
S: -ERR some deleted messages not removed, denied by rule freeze-pay
ended 1
> list orders
answer pay.1 19
answer note.2 15
answer todo.1 25
"#;
