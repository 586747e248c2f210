//! Laws of what is asked: what the units of a program that fits its host ask of types and of the host is there.
#![tactic(auto)]

ghost use Rattle.law_asks.specs.Claims.{InputIsMet, ItemsAreMet};

/// What the unit asks by which items of a text are read, is there.
pub fn what_an_input_asks_is_there()
    ensures { InputIsMet }
{}

/// What the unit asks by which a list of items is read, is there.
pub fn what_items_ask_is_there()
    ensures { ItemsAreMet }
{}
