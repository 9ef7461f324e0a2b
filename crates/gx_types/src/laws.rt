//! Which scripts may be checked.

ghost use Rattle.std.specs.Prelude.{All, List};
ghost use Rattle.gx_syntax_tree.specs.Bounds.{AreBounded};
ghost use Rattle.gx_types.specs.ScriptTyping.{BoundedAreTypable};

/// Each script that a text spells may be checked: its statements have few nodes and short texts.
pub fn parsed_scripts_are_typable()
    ensures { BoundedAreTypable }
{}
