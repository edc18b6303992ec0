//! The test vectors of public standards, and texts at the limits of each form.
use creds::{
    Credential, DepositId, HostName, LoginName, Name, Proof, Secret, Uid, apop_digest, pass_digest,
    text_digest,
};
use std::alloc::Global;
use std::fmt::Write;
use std::test::Fail;
use transcripts::playing::expect;

static STAMP: &[u8] = b"<1896.697170952@dbc.mtview.ca.us>";

/// Fails with a digest's hexadecimal digits, unless they are these.
fn expect_digits(alloc: Global, digest: &[u8], want: &str) -> Result<(), Fail> {
    let mut said = String::new(alloc);
    for octet in digest {
        write!(said, "{octet:02x}")?;
    }
    expect(said, want)
}

// RFC 1321, A.5.
static MD5: [(&str, &str); 7] = [
    ("", "d41d8cd98f00b204e9800998ecf8427e"),
    ("a", "0cc175b9c0f1b6a831c399e269772661"),
    ("abc", "900150983cd24fb0d6963f7d28e17f72"),
    ("message digest", "f96b697d7cb7938d525a2f31aaf161d0"),
    (
        "abcdefghijklmnopqrstuvwxyz",
        "c3fcd3d76192e4007dfb496cca67e13b",
    ),
    (
        "ABCDEFGHIJKLMNOPQRSTUVWXYZabcdefghijklmnopqrstuvwxyz0123456789",
        "d174ab98d277d9f5a5611c2c9f419d9f",
    ),
    (
        "12345678901234567890123456789012345678901234567890123456789012345678901234567890",
        "57edf4a22be3c955ac49da2e2107b67a",
    ),
];

/// Fails unless a text has this MD5 digest, as the timestamp before an empty secret and as the
/// secret after an empty timestamp.
fn expect_md5(alloc: Global, text: &str, want: &str) -> Result<(), Fail> {
    expect_digits(alloc, &apop_digest(text.as_bytes(), b""), want)?;
    expect_digits(alloc, &apop_digest(b"", text.as_bytes()), want)
}

#[test]
fn md5_vectors(rt: HostRuntime) -> Result<(), Fail> {
    for (text, want) in &MD5 {
        expect_md5(rt.alloc(), *text, *want)?;
    }
    Ok(())
}

// The examples of FIPS 180-4 for SHA-256, and the empty message of its validation suite.
static SHA256: [(&str, &str); 3] = [
    (
        "",
        "e3b0c44298fc1c149afbf4c8996fb92427ae41e4649b934ca495991b7852b855",
    ),
    (
        "abc",
        "ba7816bf8f01cfea414140de5dae2223b00361a396177a9cb410ff61f20015ad",
    ),
    (
        "abcdbcdecdefdefgefghfghighijhijkijkljklmklmnlmnomnopnopq",
        "248d6a61d20638b8e5c026930c3e6039a33ce45964ff2167f6ecedd419db06c1",
    ),
];

#[test]
fn sha256_vectors(rt: HostRuntime) -> Result<(), Fail> {
    for (text, want) in &SHA256 {
        expect_digits(rt.alloc(), &text_digest(text.as_bytes()), *want)?;
    }
    Ok(())
}

/// Whether the secret `tanstaaf` admits mrose by this digest under the RFC's timestamp, but not
/// under another one, and not as a password.
fn is_by_secret(shared: &Credential, mrose: &Name, digest: [u8; 16]) -> bool {
    shared.admits(mrose, STAMP, &Proof::Apop(digest))
        && !shared.admits(mrose, b"<1.7@h.test>", &Proof::Apop(digest))
        && !shared.admits(mrose, STAMP, &Proof::Pass(b"tanstaaf"))
}

/// Whether the password `s3 cret` admits ann, but not with a space after it, not another clerk,
/// and not as a secret.
fn is_by_password(kept: &Credential, ann: &Name, mrose: &Name) -> bool {
    let digest = apop_digest(STAMP, b"s3 cret");
    kept.admits(ann, STAMP, &Proof::Pass(b"s3 cret"))
        && !kept.admits(ann, STAMP, &Proof::Pass(b"s3 cret "))
        && !kept.admits(mrose, STAMP, &Proof::Pass(b"s3 cret"))
        && !kept.admits(ann, STAMP, &Proof::Apop(digest))
}

// RFC 1939, 7: the example of APOP. The digest of ann's password is by coreutils' sha256sum.
#[test]
fn admission(rt: HostRuntime) -> Result<(), Fail> {
    let digest = apop_digest(STAMP, b"tanstaaf");
    expect_digits(rt.alloc(), &digest, "c4c9334bac560ecc979e58001b3e22fb")?;
    let mrose = Name::read(b"mrose").ok_or("a name")?;
    let secret = Secret::read(b"tanstaaf").ok_or("a secret")?;
    assert!(rt; is_by_secret(&Credential::Apop(secret), &mrose, digest));
    let ann = Name::read(b"ann").ok_or("a name")?;
    let kept = pass_digest(&ann, b"s3 cret");
    let digits = "b43a467a63f3c6f08cee5d5081ae0b9de24ab8663cdca739aa854abb29861820";
    expect_digits(rt.alloc(), &kept, digits)?;
    assert!(rt; is_by_password(&Credential::Pass(kept), &ann, &mrose));
    Ok(())
}

/// What a text is read as.
#[derive(Clone, Copy)]
enum Form {
    Name,
    DepositId,
    LoginName,
    HostName,
    Secret,
}

fn is_read(form: Form, text: &[u8]) -> bool {
    match form {
        Form::Name => Name::read(text).is_some(),
        Form::DepositId => DepositId::read(text).is_some(),
        Form::LoginName => LoginName::read(text).is_some(),
        Form::HostName => HostName::read(text).is_some(),
        Form::Secret => Secret::read(text).is_some(),
    }
}

/// Texts, one a line, and whether each has the form.
static TEXTS: [(Form, bool, &str); 8] = [
    (Form::Name, true, "a\n0-"),
    (Form::Name, false, "\nAnn\na_b\na.b\na b\na/b\n\u{e9}"),
    (Form::DepositId, true, "a\n0-\nAnn\na_b"),
    (Form::DepositId, false, "\na.b\na b\na/b\n\u{e9}"),
    (Form::LoginName, true, "ann/orders"),
    (
        Form::LoginName,
        false,
        "\nann\n/orders\nann/\nAnn/orders\nann/orders/x",
    ),
    (
        Form::HostName,
        true,
        "localhost\nh.test\ndbc.mtview.ca.us\na-b.1",
    ),
    (
        Form::HostName,
        false,
        "\n.\na..b\n.a\na.\n-a.b\na-.b\na.b-\nH.test\na_b",
    ),
];

/// Fails with the first text that isn't read as it should be.
fn expect_texts() -> Result<(), Fail> {
    for (form, is_of_form, lines) in &TEXTS {
        for line in lines.lines() {
            if is_read(*form, line.as_bytes()) != *is_of_form {
                return Err(Fail::from(line));
            }
        }
    }
    Ok(())
}

/// The most octets that a text of a form may have.
static LIMITS: [(Form, usize); 4] = [
    (Form::Name, 32),
    (Form::DepositId, 64),
    (Form::HostName, 64),
    (Form::Secret, 128),
];

/// Whether a text of `most` octets has the form, and one of an octet more hasn't.
fn is_limited(form: Form, most: usize) -> bool {
    let letters = [b'a'; 129];
    is_read(form, &letters[..most.min(128)]) && !is_read(form, &letters[..most.min(128) + 1])
}

/// Whether a login name has these two names.
fn has_names(text: &str, clerk: &str, maildrop: &str) -> bool {
    match LoginName::read(text.as_bytes()) {
        Some(login) => login.clerk.as_str() == clerk && login.maildrop.as_str() == maildrop,
        None => false,
    }
}

fn is_shown(text: &[u8], shown: &str) -> bool {
    match DepositId::read(text) {
        Some(id) => id.as_str() == shown,
        None => false,
    }
}

#[test]
fn names_and_deposit_ids(rt: HostRuntime) -> Result<(), Fail> {
    expect_texts()?;
    for (form, most) in &LIMITS {
        assert!(rt; is_limited(*form, *most));
    }
    assert!(rt; is_shown(b"A-1_b", "A-1_b"));
    assert!(rt; has_names("ann/orders", "ann", "orders"));
    let class = Name::read(b"note").ok_or("a class")?;
    let uid = Uid { class, k: 12 };
    expect(format!(in rt.alloc(); "{uid}")?, "note.12")
}

/// Whether secrets with an octet that a secret may not have are refused.
fn are_refused() -> bool {
    for octet in [0x00, 0x1f, 0x7f, 0x80, 0xff] {
        if is_read(Form::Secret, &[b'a', octet]) {
            return false;
        }
    }
    true
}

#[test]
fn secrets(rt: HostRuntime) -> Result<(), Fail> {
    let tildes = [b'~'; 129];
    assert!(rt; is_read(Form::Secret, &tildes[..1]) && is_read(Form::Secret, &tildes[..128]));
    assert!(rt; !is_read(Form::Secret, &tildes));
    assert!(rt; !is_read(Form::Secret, b"") && is_read(Form::Secret, b" ") && are_refused());
    let secret = Secret::read(b"tanstaaf").ok_or("a secret")?;
    assert!(rt; secret.as_bytes() == b"tanstaaf".as_slice());
    expect(format!(in rt.alloc(); "{secret:?}")?, "Secret(..)")
}
