// Short stories from a branch, told to the library and checked when they are run. There is no code here but tests.
#![tactic(auto)]

#[cfg(test)]
mod recordings;
#[cfg(test)]
mod refusal;
#[cfg(test)]
mod runs;
#[cfg(test)]
mod tests;
