//! Tests of books: each call once, how much work a taking out is, what a book drops, a budget that is used up, and
//! allocations that are refused.
#![tactic(auto)]

#[cfg(test)]
mod books;
#[cfg(test)]
mod budget;
#[cfg(test)]
mod calls;
#[cfg(test)]
mod drops;
#[cfg(test)]
mod growths;
#[cfg(test)]
mod in_place;
#[cfg(test)]
mod opening;
#[cfg(test)]
mod scarce;
