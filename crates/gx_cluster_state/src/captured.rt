//! Inputs of a running block.

ghost use Rattle.std.specs.Prelude.{◌≡◌};
ghost use Rattle.gx_cluster_state.specs.Values.{pointed_values};

use std::marker::Model;
use std::rc::Rc;

/// The inputs that a block was started with. Contracts see it as the list of their values.
#[derive(Drop)]
pub struct Captured<T> {
    inputs: Vec<Rc<T>>,
}

impl<T> Model for Captured<T> {
    ghost use Rattle.std.specs.Prelude.{List};
    ghost use Rattle.std.specs.Coded.{coded_list};
    ghost use Rattle.gx_cluster_state.specs.Values.{pointed_values};

    ghost Value = { List T };

    ghost coded = { coded_list T.code };

    ghost view = { λ c. pointed_values c.inputs.items };
}

impl<T> Captured<T> {
    /// These inputs, in order. It takes no memory.
    pub fn of(inputs: Vec<Rc<T>>) -> Captured<T>
        ensures { result ≡ pointed_values inputs.items }
    {
        Captured { inputs }
    }

    /// The inputs, in order.
    pub fn inputs(&self) -> &[Rc<T>]
        ensures { pointed_values result.now ≡ self.now }
    {
        self.inputs.as_slice()
    }
}
