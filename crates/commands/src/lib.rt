// What each command does for a coordinator that stands, MANAGE ACL and REPORT ACL excepted.
#![tactic(auto, unfolding(paper::specs::Applied::applied, paper::specs::Applied::applied_all, paper::specs::Commands::enroll_tests, paper::specs::Commands::assign_tests, paper::specs::Commands::release_tests, paper::specs::Commands::request_tests, paper::specs::Commands::key_tests))]

pub mod enrolling;
pub mod proxying;
pub mod switching;
pub mod tokening;
