//! Which statements a statement needs. Marks go from the last statement to the first, so that each
//! use is followed once.

ghost use Rattle.std.specs.Prelude.{◌≡◌, ◌<◌, ◌≤◌, IfOk, length, vec_len};
ghost use Rattle.gx_types.specs.Marks.{Follows, MarksUses};
ghost use Rattle.gx_types.specs.Needs.{AreNeeded};

use crate::Typed;
use crate::marks::{mark_each, marked};
use gx_rows::NoMemory;

impl Typed {
    /// The numbers of the statements that statement `s` uses, directly or through others, ascending.
    /// It takes time in the number of their uses.
    ///
    /// # Errors
    ///
    /// `NoMemory` if memory for them runs out.
    pub fn needs(&self, s: u32) -> Result<Vec<u32>, NoMemory>
        requires from_one { 1 ≤ s }
        requires within { s ≤ length self.now }
        ensures { IfOk result (λ needs. AreNeeded self.now s needs.items) }
    {
        let alloc = *self.statements.allocator();
        let mut marks = Vec::from_elem(alloc, false, s as usize)?;
        self.mark_uses(&mut marks, s);
        let mut i = s;
        'statements: while i > 1 {
            i -= 1;
            self.follow(&mut marks, i);
        }
        marked(alloc, marks.as_slice())
    }

    // Marks the statements that statement `s` uses, if it is marked.
    fn follow(&self, marks: &mut Vec<bool>, s: u32)
        requires from_one { 1 ≤ s }
        requires within { s ≤ length self.now }
        requires room { s < vec_len marks.old }
        ensures len { vec_len marks.new ≡ vec_len marks.old }
        ensures followed { Follows self.now s marks.old.items marks.new.items }
    {
        if marks[s as usize] {
            self.mark_uses(marks, s);
        }
    }

    // Marks the statements that statement `s` uses.
    fn mark_uses(&self, marks: &mut Vec<bool>, s: u32)
        requires from_one { 1 ≤ s }
        requires within { s ≤ length self.now }
        requires room { s ≤ vec_len marks.old }
        ensures len { vec_len marks.new ≡ vec_len marks.old }
        ensures marked { MarksUses self.now s marks.old.items marks.new.items }
    {
        mark_each(marks, self.statements[s as usize - 1].uses.as_slice());
    }
}
