//! Tests of the 24 rules of a unit, each on units that are read from text.
//!
//! Each module has tables of units with the first line that breaks a rule and the least rule that is
//! broken there. These were worked out from the rules of the language, and not from the program. `text`
//! alone holds a unit; there is nothing here but tests.
#![tactic(auto)]

#[cfg(test)]
mod array;
#[cfg(test)]
mod block;
#[cfg(test)]
mod call;
#[cfg(test)]
mod checked;
#[cfg(test)]
mod declaration;
#[cfg(test)]
mod definition;
#[cfg(test)]
mod jump;
#[cfg(test)]
mod kind;
#[cfg(test)]
mod list;
#[cfg(test)]
mod name;
#[cfg(test)]
mod order;
#[cfg(test)]
mod record;
#[cfg(test)]
mod text;
#[cfg(test)]
mod whole;
