// The declarations that are held: each as it may be, all in order of arrival and in the day's hours, the earliest that a new one fits,
// and one taken out. Who fits whom among them is not looked at here.
#![tactic(auto)]

pub mod entering;
pub mod forms;
pub mod standing;
