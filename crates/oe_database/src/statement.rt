// Statements of SQL.
use sqlite::types::ValueRef;

/// A statement, and the values that its parameters are bound to.
pub(crate) struct Statement<'a> {
    pub text: &'static str,
    pub parameters: Vec<ValueRef<'a>>,
}

/// Written out, so that a statement that ends is one call wherever it does.
impl Drop for Statement<'_> {
    fn drop(self) {
        let Statement {
            text: _,
            parameters: _,
        } = self;
    }
}
