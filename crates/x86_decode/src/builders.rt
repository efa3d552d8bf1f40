//! Parts of the walk, for code that builds on the grammar itself, as `split` and `emit` of x86_layout do. Who decodes
//! needs none of them.
//!
//! An encoding is a run of bytes for which `is_prefix` holds, an escape, an opcode byte, which `is_vex` doesn't name,
//! and what its row has (`read_row`). The row is that of the column that `column_of` returns, and its record sees the
//! prefixes as `seen_by` returns them. F0 is allowed only where `allows_lock` holds. Of `66 0f 38 00 c1`, which is
//! PSHUFB, `column_of` returns the column of 66, and `seen_by` clears 66.
//!
//! Source: Intel SDM volume 2, sections 2.1 and 2.2.1, and appendix A.

pub use crate::head::{column_of, is_prefix, is_vex, seen_by};
pub use crate::walk::allows_lock;
pub use x86_groups::read_row;
