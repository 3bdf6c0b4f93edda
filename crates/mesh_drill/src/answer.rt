use casts::answer::Refusal;

// The lowest index of a triangle that is touched, or none, which is clear, or a refusal.
pub type DrillCast = Result<Option<u32>, Refusal>;
