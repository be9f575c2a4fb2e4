//! How a list is printed.

use crate::Vec;
use std::alloc::Allocator;
use std::fmt;

/// Prints as the slice of the items.
impl<T: fmt::Debug, A: Allocator> fmt::Debug for Vec<T, A> {
    fn fmt<W: fmt::Write>(&self, f: &mut fmt::Formatter<W>) -> fmt::Result {
        f.debug_list().entries(self.as_slice()).finish()
    }
}

/// The items in lowercase hexadecimal, with `:` between them.
impl<T: fmt::LowerHex, A: Allocator> fmt::LowerHex for Vec<T, A> {
    fn fmt<W: fmt::Write>(&self, f: &mut fmt::Formatter<W>) -> fmt::Result {
        let mut first = true;
        for item in self.as_slice() {
            if !first {
                write!(f, ":")?;
            }
            first = false;
            item.fmt(f)?;
        }
        Ok(())
    }
}

/// The items in uppercase hexadecimal, with `:` between them.
impl<T: fmt::UpperHex, A: Allocator> fmt::UpperHex for Vec<T, A> {
    fn fmt<W: fmt::Write>(&self, f: &mut fmt::Formatter<W>) -> fmt::Result {
        let mut first = true;
        for item in self.as_slice() {
            if !first {
                write!(f, ":")?;
            }
            first = false;
            item.fmt(f)?;
        }
        Ok(())
    }
}
