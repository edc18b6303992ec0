//! Transcripts of pipelined lines.

/// Ann sends three lines at once, and takes seven octets at a time, or what is owed if that is
/// less. A line acts once the replies to those before it are taken.
pub const PIPELINED: &str = r"> connect
opened 1
> drain 1
sent 1 +OK POP3 server ready <1.7@h.test>\r\n
done
> bytes 1 USER ann/orders\r\n
done
> drain 1
sent 1 +OK send PASS\r\n
done
> bytes 1 PASS s3 cret\r\n
done
> drain 1
sent 1 +OK maildrop has 4 messages (80 octets)\r\n
done
> bytes 1 RETR 1\r\nDELE 1\r\nQUIT\r\n
done
> took 1 7
sent 1 +OK 21 
done
> took 1 7
sent 1 octets\r
done
> took 1 7
sent 1 \nSubjec
done
> deposit orders note d5 x\n
answer new note.3
> took 1 7
sent 1 t: a\r\n\r
done
> took 1 7
sent 1 \nhi\r\n..
done
> took 1 5
sent 1 \r\n.\r\n
done
> took 1 7
sent 1 +OK mes
done
> took 1 7
sent 1 sage 1 
done
> took 1 7
sent 1 deleted
done
> list orders
answer note.1 21
answer pay.1 19
answer note.2 15
answer todo.1 25
answer note.3 3
";

/// The QUIT acts, and removes what is marked.
pub const QUIT: &str = r"> took 1 2
sent 1 \r\n
done
> list orders
answer pay.1 19
answer note.2 15
answer todo.1 25
answer note.3 3
> took 1 7
sent 1 +OK bye
done
> drain 1
sent 1 \r\n
done
ended 1
";
