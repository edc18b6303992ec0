//! Transcripts of connections that end, wait and come back.

/// Ann marks a message, and her connection breaks: bob is let in, and sees that message.
pub const GONE: &str = r"> connect
opened 1
> connect
opened 2
> drain 1
sent 1 +OK POP3 server ready <1.7@h.test>\r\n
done
> drain 2
sent 2 +OK POP3 server ready <2.7@h.test>\r\n
done
> bytes 1 USER ann/orders\r\nPASS s3 cret\r\nDELE 1\r\n
done
> drain 1
sent 1 +OK send PASS\r\n+OK maildrop has 4 messages (80 octets)\r\n+OK message 1 deleted\r\n
done
> bytes 2 USER bob/orders\r\nPASS hunter\r\n
done
> drain 2
sent 2 +OK send PASS\r\n-ERR [IN-USE] maildrop is in use\r\n
done
> gone 1
done
ended 1
> bytes 2 USER bob/orders\r\nPASS hunter\r\n
done
> drain 2
sent 2 +OK send PASS\r\n+OK maildrop has 3 messages (61 octets)\r\n
done
";

/// Ann marks a message, and is idle for 600 seconds: bob is let in, and sees that message.
pub const IDLE: &str = r"> tick 1000
done
> connect
opened 1
> drain 1
sent 1 +OK POP3 server ready <1.7@h.test>\r\n
done
> bytes 1 USER ann/orders\r\nPASS s3 cret\r\nDELE 1\r\n
done
> drain 1
sent 1 +OK send PASS\r\n+OK maildrop has 4 messages (80 octets)\r\n+OK message 1 deleted\r\n
done
> tick 1599
done
> sessions
answer 1 ann orders
> tick 1600
done
ended 1
> drain 1
done
> connect
opened 2
> drain 2
sent 2 +OK POP3 server ready <2.7@h.test>\r\n
done
> bytes 2 USER bob/orders\r\nPASS hunter\r\n
done
> drain 2
sent 2 +OK send PASS\r\n+OK maildrop has 3 messages (61 octets)\r\n
done
";

/// A message is removed.
pub const BEFORE_A_RESTART: &str = r"> connect
opened 1
> drain 1
sent 1 +OK POP3 server ready <1.7@h.test>\r\n
done
> bytes 1 USER ann/orders\r\nPASS s3 cret\r\nDELE 4\r\nQUIT\r\n
done
> drain 1
sent 1 +OK send PASS\r\n+OK maildrop has 4 messages (80 octets)\r\n+OK message 4 deleted\r\n+OK bye\r\n
done
ended 1
";

/// A removed message's deposit id and unique-id stay used, over a restart too.
pub const AFTER_A_RESTART: &str = r"> connect
opened 1
> drain 1
sent 1 +OK POP3 server ready <1.8@h.test>\r\n
done
> deposit orders todo d6 A: 2\n
answer new todo.2
> deposit orders todo d4 A: 1\r\n\r\none\r\ntwo\r\nthree\r\n
answer known todo.1
> deposit orders todo d4 A: 3\n
answer conflict
> deposit orders note d4 A: 1\r\n\r\none\r\ntwo\r\nthree\r\n
answer conflict
> list orders
answer note.1 21
answer pay.1 19
answer note.2 15
answer todo.2 6
";

/// The administration ends a session, and with it its connection. A session that has said QUIT is
/// not listed any more.
pub const SESSIONS: &str = r"> sessions
answer
> maildrop add sales
answer added
> connect
opened 1
> connect
opened 2
> drain 2
sent 2 +OK POP3 server ready <2.7@h.test>\r\n
done
> bytes 2 USER eve/sales\r\nPASS any one\r\n
done
> drain 2
sent 2 +OK send PASS\r\n+OK maildrop has 0 messages (0 octets)\r\n
done
> drain 1
sent 1 +OK POP3 server ready <1.7@h.test>\r\n
done
> end 1
answer no such session
> bytes 1 USER ann/orders\r\nPASS s3 cret\r\nDELE 1\r\n
done
> drain 1
sent 1 +OK send PASS\r\n+OK maildrop has 4 messages (80 octets)\r\n+OK message 1 deleted\r\n
done
> sessions
answer 1 ann orders
answer 2 eve sales
> end 1
answer ended
ended 1
> end 1
answer no such session
> end 3
answer no such session
> sessions
answer 2 eve sales
> list orders
answer note.1 21
answer pay.1 19
answer note.2 15
answer todo.1 25
> maildrop drop sales
answer in use
> bytes 2 QUIT\r\n
done
> sessions
answer
> end 2
answer no such session
> maildrop drop sales
answer dropped
> drain 2
sent 2 +OK bye\r\n
done
ended 2
";
