// The archive's three demands, stated in specs/ and proved in proofs/ over what `session_run` and `tray_run` promise.
#![tactic(auto)]
