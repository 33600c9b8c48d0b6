// What a system says of its arguments no clause knows: here they are given.

use crate::{only, start_of};
use std::env::{Env, FillError};

#[derive(Drop)]
struct Given<'a> {
    arguments: &'a [&'a [u8]],
}

impl Env for Given<'_> {
    fn arg(&self, i: usize, buf: &mut [u8]) -> Result<usize, FillError> {
        match self.arguments.get(i) {
            None => Err(FillError::NotPresent),
            Some(argument) if buf.len() < argument.len() => Err(FillError::TooLong),
            Some(argument) => {
                buf[..argument.len()].copy_from_slice(argument);
                Ok(argument.len())
            }
        }
    }

    fn var(&self, _name: &str, _buf: &mut [u8]) -> Result<usize, FillError> {
        Err(FillError::NotPresent)
    }

    fn var_at(&self, _i: usize, _buf: &mut [u8]) -> Result<usize, FillError> {
        Err(FillError::NotPresent)
    }
}

#[test]
fn only_argument(rt: HostRuntime) {
    let cases: [(&[&[u8]], Option<&[u8]>); 8] = [
        (&[], None),
        (&[b"name"], None),
        (&[b"name", b""], Some(b"")),
        (&[b"name", b"2"], Some(b"2")),
        (&[b"name", b"0200"], Some(b"0200")),
        (&[b"name", b"02000"], None),
        (&[b"name", b"0200", b""], None),
        (&[b"name", b"0200", b"0300"], None),
    ];
    for (arguments, want) in cases {
        assert_eq!(rt; only(&Given { arguments }, &mut [0; 4]), want);
    }
    let longer = Given {
        arguments: &[b"name", b"02000"],
    };
    assert_eq!(rt; only(&longer, &mut [0; 5]), Some(b"02000".as_slice()));
    let start = Given {
        arguments: &[b"name", b"0200"],
    };
    assert_eq!(rt; only(&start, &mut [0; 4]).and_then(start_of), Some(512));
}
