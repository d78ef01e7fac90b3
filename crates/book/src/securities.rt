// The table of securities: at most 16, kept in place.
ghost use Rattle.std.specs.Prelude.{◌≡◌, ◌<◌, ◌≤◌, [], IfOk};
ghost use Rattle.arrayvec.specs.ArrayVec.{array_vec_len};
ghost use Rattle.book.specs.Tables.{has_security, requoted};

use arrayvec::ArrayVec;
use denials::book::BookFault;
use terms::holdings::Security;
use terms::limits::SECURITIES;

/// The listed securities, by number.
#[derive(Drop)]
pub(crate) struct Securities {
    pub(crate) listed: ArrayVec<Security, SECURITIES>,
    ghost few: { array_vec_len listed ≤ 16 },
}

impl Securities {
    pub(crate) fn new() -> Securities
        ensures { result.listed.items ≡ [] }
    {
        Securities {
            listed: ArrayVec::new(),
        }
    }

    /// The index of a security that is listed.
    pub(crate) fn find(&self, security: u64) -> Result<usize, BookFault>
        ensures value { result ≡ has_security self.now.listed.items security }
        ensures within { IfOk result (λ i. i < array_vec_len self.now.listed) }
    {
        let i = security as usize;
        (i < self.listed.len())
            .then_some(i)
            .ok_or(BookFault::NoSuchSecurity { security })
    }
}
