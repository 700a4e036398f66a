// Tests of job files: the sample, and one damaged file for each fault and each of its borders.
#![tactic(auto)]

#[cfg(test)]
mod tests;
