// The terms of the park: sides, words, places, cells, messages, answers, refusals, and the controllers' rules.
#![tactic(auto)]

pub mod act;
pub mod answer;
pub mod entries;
pub mod heard;
pub mod message;
pub mod place;
pub mod reading;
pub mod refusal;
pub mod rules;
pub mod word;
pub mod words_heard;
