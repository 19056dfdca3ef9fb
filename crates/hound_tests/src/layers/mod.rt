// Tests of the layers below `hound`: definitions that the prover evaluates, media of a user's own, texts of errors.
mod blocks;
mod definitions;
mod errors;
mod losses;
mod media;
mod repair;
mod scales;
