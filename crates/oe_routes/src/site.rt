// What a service is set up with.
use crate::tokens::Tokens;
use oe_dims::Text;

/// Where a service is found, and its users.
pub struct Site {
    /// The base of its addresses, of 1 to 1024 bytes from 0x21 to 0x7E, which ends with a slash.
    pub base: Text,
    pub tokens: Tokens,
}

/// Written out, so that such a value ends by one call wherever it does.
impl Drop for Site {
    fn drop(self) {
        let Site { base: _, tokens: _ } = self;
    }
}
