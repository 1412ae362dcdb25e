//! Which numbers make a plan.

use reply_pool::Plan;

#[test]
fn plans_of_few_workers_and_jobs(rt: HostRuntime) {
    for (workers, batch) in [(1, 1), (64, 256)] {
        let plan = Plan::new(workers, batch);
        assert!(rt; plan.is_some_and(|plan| plan.workers() == workers && plan.batch() == batch));
    }
    for (workers, batch) in [(0, 1), (65, 1), (1, 0), (1, 257)] {
        assert!(rt;
            Plan::new(workers, batch).is_none(),
            "{workers} and {batch}"
        );
    }
}
