//! Tasks that meet in threads of their own. A part is one line of a table: what it does stands in the module of its
//! calls.

mod parts;

pub(crate) use crate::meetings::parts::Part;
