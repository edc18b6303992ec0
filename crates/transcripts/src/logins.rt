//! Transcripts of logins, and of what fails them.

/// Three refused passwords.
pub const WRONG_PASSWORDS: &str = r"> connect
opened 1
> drain 1
sent 1 +OK POP3 server ready <1.7@h.test>\r\n
done
C: USER ann/orders
S: +OK send PASS
C: PASS wrong
S: -ERR login failed
C: user ann/orders 
S: +OK send PASS
C: PASS wrong
S: -ERR login failed
C: USER ann/orders
S: +OK send PASS
C: PASS wrong
S: -ERR login failed, closing
ended 1
";

/// A refused password, and two refused digests.
pub const WRONG_DIGESTS: &str = r"> connect
opened 1
> drain 1
sent 1 +OK POP3 server ready <1.7@h.test>\r\n
done
C: USER ann/orders
S: +OK send PASS
C: PASS wrong
S: -ERR login failed
C: APOP mrose/orders c4c9334bac560ecc979e58001b3e22fb
S: -ERR login failed
C: APOP mrose/orders C4C9334BAC560ECC979E58001B3E22FB
S: -ERR login failed, closing
ended 1
";

/// Lines before a login. The PASS after each shows whether the name of the last USER is still in
/// force.
pub const NAMES_IN_FORCE: &str = r"> connect
opened 1
> drain 1
sent 1 +OK POP3 server ready <1.7@h.test>\r\n
done
C: PASS s3 cret
S: -ERR wrong state
C: USER ann
S: -ERR bad arguments
C: USER Ann/orders
S: -ERR bad arguments
C: PASS s3 cret
S: -ERR wrong state
C: USER zoe/orders
S: +OK send PASS
C: PASS
S: -ERR bad arguments
C: PASS s3 cret
S: -ERR wrong state
C: USER ann/orders
S: +OK send PASS
C: XYZZY
S: -ERR unknown command
C: PASS s3 cret
S: -ERR wrong state
C: USER ann/orders
S: +OK send PASS
C: CAPA x
S: -ERR bad arguments
C: PASS s3 cret
S: -ERR wrong state
C: USER ann/orders
S: +OK send PASS
C: CAPA
S: +OK capability list follows\r\nTOP\r\nUSER\r\nUIDL\r\nRESP-CODES\r\nPIPELINING\r\n.
C: PASS s3 cret
S: -ERR login failed
C: PASS s3 cret
S: -ERR wrong state
C: STAT
S: -ERR wrong state
C: RETR x
S: -ERR wrong state
C: 
S: -ERR unknown command
C: QUIT
S: +OK bye
ended 1
";
