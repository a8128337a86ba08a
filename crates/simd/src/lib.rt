// What SIMD v1.1 is. This crate has no code: the definitions are in specs/, and every contract above it cites them and none restates them.
// In proofs/ the digests of appendix A are computed from the definitions.
#![tactic(auto)]
